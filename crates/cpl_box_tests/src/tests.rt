// What tries answer on one thread, and what a pass knows that another was joined into.
ghost use Rattle.std.specs.Prelude.{◌≡◌, [], ◌∷◌, pos, length};
ghost use Rattle.cpl_box.specs.Passes.{view_of};
ghost use Rattle.cpl_box_tests.specs.Tiny.{tiny_wires};

use crate::tiny::Tiny;
use cpl_box::{BoxUser, Pass, PostBox};
use cpl_core::{Boxes, NotYet};
use std::alloc::{AllocError, Global};
use std::test::Fail;
use std::thread;

type Answer = Result<(), NotYet>;

// The answers of a take of use 0, a post of use 0 and of use 1, and a take of use 0 and of use 1, with the
// number that was taken. None where a try doesn't go as it should.
fn answers<B: Boxes>(alloc: Global, boxes: &mut B) -> Result<Option<([Answer; 5], i64)>, AllocError>
    requires wires { B.wires boxes.old ≡ tiny_wires }
    requires posts { B.posts boxes.old ≡ 0 ∷ [] }
    requires takes { B.takes boxes.old ≡ 0 ∷ [] }
    ensures { B.name boxes.new ≡ B.name boxes.old }
{
    let mut first = vec![in alloc; 5i64; 1]?;
    let mut second = vec![in alloc; 6i64; 1]?;
    let mut taken = vec![in alloc; 0i64; 1]?;
    let early = boxes.try_take(0, 0, &mut taken);
    if early.is_ok() {
        return Ok(None);
    }
    let posted = boxes.try_post(0, 0, &mut first);
    if posted.is_err() {
        return Ok(None);
    }
    let full = boxes.try_post(0, 1, &mut second);
    let found = boxes.try_take(0, 0, &mut taken);
    if found.is_err() {
        return Ok(None);
    }
    let number = taken[0];
    let late = boxes.try_take(0, 1, &mut taken);
    Ok(Some(([early, posted, full, found, late], number)))
}

#[test]
fn tries_tell_the_word_that_they_found(rt: HostRuntime) -> Result<(), Fail> {
    let (boxes, pass) = PostBox::new(rt.alloc(), &Tiny)?;
    let mut user = boxes.user(pass);
    let answers = answers(rt.alloc(), &mut user)?;
    let wanted = [
        Err(NotYet { edge: 0, word: 0 }),
        Ok(()),
        Err(NotYet { edge: 0, word: 2 }),
        Ok(()),
        Err(NotYet { edge: 0, word: 4 }),
    ];
    assert_eq!(rt; answers, Some((wanted, 5)));
    let pass = user.pass();
    boxes.close(pass);
    Ok(())
}

// Posts use 0 by one pass, joins what that pass has seen into the other, and takes use 0 by that one.
fn answer_after_join(alloc: Global) -> Result<(Answer, Answer, i64), AllocError> {
    let (boxes, mut first) = PostBox::new(alloc, &Tiny)?;
    let mut second = boxes.split_pass(&mut first);
    let mut list = vec![in alloc; 5i64; 1]?;
    let mut poster = boxes.user(first);
    let posted = poster.try_post(0, 0, &mut list);
    let mut first = poster.pass();
    let note = boxes.split_pass(&mut first);
    boxes.join_pass(&mut second, note);
    let mut taker = boxes.user(second);
    let mut buf = vec![in alloc; 0i64; 1]?;
    let taken = taker.try_take(0, 0, &mut buf);
    let number = buf[0];
    let second = taker.pass();
    boxes.close(second);
    Ok((posted, taken, number))
}

#[test]
fn a_pass_takes_what_another_posted(rt: HostRuntime) -> Result<(), Fail> {
    let answer = answer_after_join(rt.alloc())?;
    assert_eq!(rt; answer, (Ok(()), Ok(()), 5));
    Ok(())
}

// Posts use 0, and gives the pass back.
fn hand_over<'a>(mut user: BoxUser<'a, Tiny>, mut list: Vec<i64>) -> (Answer, Pass)
    requires wires { (view_of user.pass).wires ≡ tiny_wires }
    requires posts { (view_of user.pass).posts ≡ 0 ∷ [] }
    requires list { list.items ≡ pos 5 ∷ [] }
{
    let answer = user.try_post(0, 0, &mut list);
    (answer, user.pass())
}

// Tries to take use 0 until it is there, and gives the pass back.
fn receive<'a>(mut user: BoxUser<'a, Tiny>, mut list: Vec<i64>) -> (Option<i64>, Pass)
    requires wires { (view_of user.pass).wires ≡ tiny_wires }
    requires takes { (view_of user.pass).takes ≡ 0 ∷ [] }
    requires list { length list.items ≡ 1 }
{
    for _ in 0..u64::MAX {
        if user.try_take(0, 0, &mut list).is_ok() {
            return (Some(list[0]), user.pass());
        }
    }
    (None, user.pass())
}

#[test]
fn two_threads_hand_a_list_over(rt: HostRuntime) -> Result<(), Fail> {
    let alloc = rt.alloc();
    let (boxes, mut first) = PostBox::new(alloc, &Tiny)?;
    let second = boxes.split_pass(&mut first);
    let sent = vec![in alloc; 5i64; 1]?;
    let spare = vec![in alloc; 0i64; 1]?;
    let poster = boxes.user(first);
    let taker = boxes.user(second);
    let ((posted, _first), (taken, _second)) = thread::join(
        &rt,
        move ||
            requires { ((view_of poster.pass).wires ≡ tiny_wires) × ((view_of poster.pass).posts ≡ 0 ∷ []) × (sent.items ≡ pos 5 ∷ []) }
        { hand_over(poster, sent) },
        move ||
            requires { ((view_of taker.pass).wires ≡ tiny_wires) × ((view_of taker.pass).takes ≡ 0 ∷ []) × (length spare.items ≡ 1) }
        { receive(taker, spare) },
    );
    assert_eq!(rt; (posted, taken), (Ok(()), Some(5)));
    Ok(())
}
