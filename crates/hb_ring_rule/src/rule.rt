//! The rule, and what each kind of step tells.

use crate::seats::View;
use crate::shape::Shape;
use atomic_table::{Join, Play, Split, TableRule};
use std::marker::{Brand, PhantomData};

/// The rule of a ring of this shape.
pub struct RingRule;

impl TableRule<u8, View, Shape> for RingRule {
    ghost use Rattle.hb_ring_rule.specs.Rule.{Holds};
    ghost use Rattle.hb_ring_rule.specs.Views.{Writes, first_writer};

    ghost holds = { Holds };

    ghost first = { λ shape. Writes (first_writer shape) };
}

/// What a look is asked: a position, and the moment at which it is made, in nanoseconds since
/// 1970-01-01T00:00:00Z. A load does not carry them, so a caller names them by a type, `Brand`.
pub trait Asked {
    ghost use Rattle.std.specs.Prelude.{ℕ};

    ghost position: { ℕ };

    ghost moment: { ℕ };
}

impl Asked for Brand {
    ghost position = { 0 };

    ghost moment = { 0 };
}

/// The begun count is stored.
pub(crate) struct Begin;

impl Play<u8, View> for Begin {
    ghost use Rattle.hb_ring_rule.specs.Plays.{begun_play};

    ghost then = { λ _. begun_play };
}

/// One word of a slot is stored.
pub(crate) struct Store;

impl Play<u8, View> for Store {
    ghost use Rattle.hb_ring_rule.specs.Plays.{stored_play};

    ghost then = { λ _. stored_play };
}

/// The finished count is stored.
pub(crate) struct Finish;

impl Play<u8, View> for Finish {
    ghost use Rattle.hb_ring_rule.specs.Plays.{finished_play};

    ghost then = { λ _. finished_play };
}

/// The writer loads the finished count, and finds that the readers it took in stand for its log.
pub(crate) struct Confirm;

impl Play<u8, View> for Confirm {
    ghost use Rattle.hb_ring_rule.specs.Plays.{confirmed_play};

    ghost then = { λ _. confirmed_play };
}

/// A reader loads the finished count, and makes no look.
pub(crate) struct LoadTop;

impl Play<u8, View> for LoadTop {
    ghost use Rattle.hb_ring_rule.specs.Plays.{topped_play};

    ghost then = { λ _. topped_play };
}

/// A reader loads the finished count for a look.
pub(crate) struct LookUp<J> {
    asked: PhantomData<J>,
}

impl<J: Asked> Play<u8, View> for LookUp<J> {
    ghost use Rattle.hb_ring_rule.specs.Plays.{looked_up_play};

    ghost then = { λ _. looked_up_play J.position J.moment };
}

/// A reader loads one word of a slot.
pub(crate) struct LoadWord;

impl Play<u8, View> for LoadWord {
    ghost use Rattle.hb_ring_rule.specs.Plays.{word_play};

    ghost then = { λ _. word_play };
}

/// A reader loads the begun count, which ends a look.
pub(crate) struct EndLook<J> {
    asked: PhantomData<J>,
}

impl<J: Asked> Play<u8, View> for EndLook<J> {
    ghost use Rattle.hb_ring_rule.specs.Plays.{ended_play};

    ghost then = { λ _. ended_play J.moment };
}

/// A reader of the writer's.
pub(crate) struct NewReader;

impl Split<View> for NewReader {
    ghost use Rattle.hb_ring_rule.specs.Plays.{stays, read_by_new};

    ghost left = { stays };

    ghost right = { read_by_new };
}

/// A reader of another's.
pub(crate) struct Twin;

impl Split<View> for Twin {
    ghost use Rattle.hb_ring_rule.specs.Plays.{stays, read_by_twin};

    ghost left = { stays };

    ghost right = { read_by_twin };
}

/// The writer takes a reader in.
pub(crate) struct Retire;

impl Join<View> for Retire {
    ghost use Rattle.hb_ring_rule.specs.Plays.{with_joined};
    ghost use Rattle.hb_ring_rule.specs.Views.{Spent};

    ghost both = { with_joined };

    ghost spent = { Spent };
}
