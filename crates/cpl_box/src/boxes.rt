// Posts and takes by a holder of the boxes.
ghost use Rattle.std.specs.Prelude.{◌≡◌};
ghost use Rattle.cpl_box.specs.Passes.{view_of, pass_name, IsPassOf};

use crate::pass::{Pass, PostBox};
use crate::user::BoxUser;
use cpl_core::{Boxes, NotYet, Wiring};

impl<W: Wiring> PostBox<W> {
    #[tactic(auto, using(crate::proofs::Names::name_tells))]
    /// A holder of these boxes, by one of their passes.
    pub fn user<'a>(&'a self, pass: Pass) -> BoxUser<'a, W>
        requires { IsPassOf self.now pass }
        ensures { result.pass ≡ pass }
    {
        BoxUser { home: self, pass }
    }
}

impl<'a, W: Wiring> BoxUser<'a, W> {
    /// Gives the pass back.
    pub fn pass(self) -> Pass
        ensures { result ≡ self.entry.pass }
    {
        let BoxUser { home: _, pass } = self;
        pass
    }
}

impl<'a, W: Wiring> Boxes for BoxUser<'a, W> {
    ghost wires = { λ u. (view_of u.pass).wires };

    ghost name = { λ u. pass_name u.pass };

    ghost posts = { λ u. (view_of u.pass).posts };

    ghost takes = { λ u. (view_of u.pass).takes };

    ghost seen = { λ u. (view_of u.pass).seen };

    ghost tries = { λ u. (view_of u.pass).tries };

    ghost last_edge = { λ u. (view_of u.pass).last_edge };

    ghost last_word = { λ u. (view_of u.pass).last_word };

    fn try_post(&mut self, edge: u32, k: u64, buf: &mut Vec<i64>) -> Result<(), NotYet> {
        let home = self.home;
        home.post(&mut self.pass, edge, k, buf)
    }

    fn try_take(&mut self, edge: u32, k: u64, buf: &mut Vec<i64>) -> Result<(), NotYet> {
        self.home.take(&mut self.pass, edge, k, buf)
    }
}
