// The groups of a namelist. `coupler_nml` is known from FMS; the others are defined by this project.
ghost use Rattle.std.specs.Prelude.{◌≡◌, ◌<◌, find};
ghost use Rattle.cpl_namelist.specs.Tokens.{same_word};
ghost use Rattle.cpl_namelist.specs.Groups.{group_name, group_named, group_place, is_same_group};

use crate::token::same_word;

/// A group of names.
#[derive(Clone, Copy, Debug, PartialEq, Eq)]
pub enum Group {
    Coupler,
    Layout,
    Air,
    Land,
    Ice,
    Ocean,
}

const GROUPS: [Group; 6] = [
    Group::Coupler,
    Group::Layout,
    Group::Air,
    Group::Land,
    Group::Ice,
    Group::Ocean,
];

impl Group {
    // How a heading names it, after its mark.
    fn name(self) -> &'static [u8]
        ensures { result.now ≡ group_name self }
    {
        match self {
            Group::Coupler => b"coupler_nml",
            Group::Layout => b"layout_nml",
            Group::Air => b"air_nml",
            Group::Land => b"land_nml",
            Group::Ice => b"ice_nml",
            Group::Ocean => b"ocean_nml",
        }
    }

    // Its place among the groups.
    pub(crate) fn place(self) -> usize
        ensures value { result ≡ group_place self }
        ensures within { result < 6 }
    {
        match self {
            Group::Coupler => 0,
            Group::Layout => 1,
            Group::Air => 2,
            Group::Land => 3,
            Group::Ice => 4,
            Group::Ocean => 5,
        }
    }
}

// Whether two groups are one.
pub(crate) fn is_same_group(a: Group, b: Group) -> bool
    ensures { result ≡ is_same_group a b }
{
    a == b
}

// The first of these groups that has the name, case aside.
fn group_in(groups: &[Group], word: &[u8]) -> Option<Group>
    ensures { result ≡ find (λ group. same_word (group_name group) word.now) groups.now }
{
    groups
        .iter()
        .copied()
        .find(|group| same_word(group.name(), word))
}

// The group with this name, case aside.
#[tactic(auto, unfolding(crate::specs::Groups::group_named))]
pub(crate) fn group_named(word: &[u8]) -> Option<Group>
    ensures { result ≡ group_named word.now }
{
    group_in(&GROUPS, word)
}
