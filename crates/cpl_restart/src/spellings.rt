// The faults of a restart's bytes, told by spellings.
ghost use Rattle.std.specs.Prelude.{◌≡◌, ◌≢◌, ◌<◌, ◌≤◌, ◌+◌, ◌^◌, ◌++◌, ◌∷◌, [], ℕ, ℤ, List, length, take, pos, Ok};
ghost use Rattle.cpl_xgrid.specs.declared.grid.Grid.{Grid};
ghost use Rattle.cpl_restart.specs.Lawful.{judged};
ghost use Rattle.cpl_restart.specs.Numbers.{number_bytes, section_bytes};
ghost use Rattle.cpl_restart.specs.RestartBytes.{HasSections, count_of, first_mark, front_bytes, mark_of, section_of, second_mark, sections_of, whole_bytes, whole_of};
ghost use Rattle.cpl_restart.specs.Sections.{wrapped_sum};
ghost use Rattle.cpl_restart.specs.declared.start_error.StartError.{StartError};
ghost use Rattle.cpl_restart.specs.declared.start_error.StartError.TheVariants.{Short, Magic, Shape, Sum, Trailing};
ghost use Rattle.cpl_restart.specs.declared.version.Version.{Version};
ghost use Rattle.cpl_restart.specs.declared.version.Version.TheVariants.{Second};
ghost use Rattle.cpl_state.specs.declared.whole.Whole.{Whole};

/// A theorem, and no work: the faults of a restart's bytes, told by spellings. What is cut off, changed or added is refused by the
/// fault that says so. The states are those that sections of the grid's counts can hold, lawful or not.
pub fn faults_of_restart()
    // A front of a file, and not all of it.
    ensures short { (grid : Grid) (version : Version) (n : ℕ) (whole : Whole) → HasSections grid whole
        → n < length (whole_bytes version whole) → whole_of grid (take n (whole_bytes version whole)) ≡ Err Short }
    // Fewer bytes than a mark has, and another mark.
    ensures no_mark { (grid : Grid) (bytes : List ℕ) → length bytes < 8 → whole_of grid bytes ≡ Err Short }
    ensures magic { (grid : Grid) (bytes : List ℕ) → 8 ≤ length bytes → take 8 bytes ≢ first_mark → take 8 bytes ≢ second_mark
        → whole_of grid bytes ≡ Err Magic }
    // Another sum of the elapsed seconds.
    ensures elapsed { (grid : Grid) (stated : ℕ) (whole : Whole) (rest : List ℕ) → HasSections grid whole → stated < 2 ^ 64
        → stated ≢ wrapped_sum (whole.elapsed ∷ [])
        → whole_of grid (second_mark ++ (number_bytes whole.elapsed ++ (number_bytes (pos stated) ++ rest)))
        ≡ Err (Sum 0 stated (wrapped_sum (whole.elapsed ∷ []))) }
    // Another count of section k + 1, after k sections.
    ensures shape { (grid : Grid) (version : Version) (k n : ℕ) (whole : Whole) (rest : List ℕ) → HasSections grid whole → k < 14
        → n < 2 ^ 64 → n ≢ count_of grid k
        → whole_of grid (front_bytes version whole k ++ (number_bytes (pos n) ++ rest)) ≡ Err (Shape (1 + k)) }
    // Another sum of section k + 1, whose numbers these are.
    ensures sum { (grid : Grid) (k stated : ℕ) (whole : Whole) (rest : List ℕ) → HasSections grid whole → k < 14 → stated < 2 ^ 64
        → stated ≢ wrapped_sum (pos (length (section_of (sections_of whole) k)) ∷ section_of (sections_of whole) k)
        → whole_of grid (front_bytes Second whole k ++ (section_bytes (section_of (sections_of whole) k) ++ (number_bytes (pos stated) ++ rest)))
        ≡ Err (Sum (1 + k) stated (wrapped_sum (pos (length (section_of (sections_of whole) k)) ∷ section_of (sections_of whole) k))) }
    // A file, and more.
    ensures trailing { (grid : Grid) (version : Version) (whole : Whole) (more : List ℕ) → HasSections grid whole → 0 < length more
        → whole_of grid (whole_bytes version whole ++ more) ≡ Err Trailing }
    // A file of a state that breaks a rule.
    ensures rules { (grid : Grid) (version : Version) (whole : Whole) (fault : StartError) → HasSections grid whole
        → judged grid whole ≡ Err fault → whole_of grid (whole_bytes version whole) ≡ Err fault }
{}
