//! The processor's registers, and what lasts from one unit to the next.

ghost use Rattle.std.specs.Prelude.{◌≡◌, ◌||◌, true};
ghost use Rattle.nj_cpu.specs.Unit.{no_rise};

use nj_alu::Flags;
use std::marker::Model;

/// What is known of an NMI that was not taken yet. `Late` means that the line rose in the last cycle
/// of a unit, too late to be taken after it; `Due` that the next unit is its entry.
#[derive(Clone, Copy, Debug, PartialEq, Eq)]
pub enum Note {
    None,
    Late,
    Due,
}

/// The registers of the processor. `line` is the level of the NMI line after the last access.
/// A jammed processor runs nothing until it is powered on anew.
#[derive(Clone, Copy, Debug, PartialEq, Eq)]
pub struct Cpu {
    pub a: u8,
    pub x: u8,
    pub y: u8,
    pub s: u8,
    pub pc: u16,
    pub flags: Flags,
    pub note: Note,
    pub line: bool,
    pub jammed: bool,
}

/// How a unit ended: whether the processor is jammed after it.
#[derive(Clone, Copy, Debug, PartialEq, Eq)]
pub enum UnitEnd {
    Done,
    Jammed,
}

/// The NMI line as a unit's code watches it: its level after the last access, and where it rose within the unit, before
/// its last cycle so far and in that cycle. All of it is one byte, so that one look tells that there is nothing to
/// note.
#[derive(Drop)]
pub(crate) struct Rises {
    // 1 for the level, 2 where it rose in the last cycle, and 4 where it rose before.
    marks: u8,
}

impl Model for Rises {
    ghost use Rattle.std.specs.Prelude.{◌==◌, ◌/◌, ◌%◌, nat_le};
    ghost use Rattle.nj_cpu.specs.Walk.{Watched};

    ghost Value = { Watched };

    ghost view = { λ r. record {
      edges = record { before = nat_le 4 r.marks; last = r.marks / 2 % 2 == 1 };
      line = r.marks % 2 == 1;
    } };
}

impl Rises {
    /// The line has not risen yet.
    #[inline(always)]
    pub fn begun(level: bool) -> Rises
        ensures { result ≡ record { edges = no_rise; line = level } }
    {
        Rises { marks: level as u8 }
    }

    /// Whether it rose at all.
    #[inline(always)]
    pub fn any(&self) -> bool
        ensures { result ≡ (self.now.edges.before || self.now.edges.last) }
    {
        self.marks >= 2
    }

    /// Whether there is nothing to note after an access: the line stands, and has not risen yet.
    #[inline(always)]
    pub fn is_quiet(&self, level: bool) -> bool
        ensures { result ≡ true → self.now ≡ record { edges = no_rise; line = level } }
    {
        self.marks == level as u8
    }

    /// Whether it rose in the last cycle so far.
    #[inline(always)]
    pub fn last(&self) -> bool
        ensures { result ≡ self.now.edges.last }
    {
        self.marks / 2 % 2 == 1
    }

    /// Whether it rose before that cycle.
    #[inline(always)]
    pub fn before(&self) -> bool
        ensures { result ≡ self.now.edges.before }
    {
        self.marks >= 4
    }

    /// One cycle more, after which the line has this level, and in which it rose or not.
    #[inline(always)]
    pub fn turn(&mut self, level: bool, rose: bool)
        ensures { self.new ≡ record {
          edges = record { before = self.old.edges.before || self.old.edges.last; last = rose };
          line = level;
        } }
    {
        let before = self.marks >= 2;
        self.marks = before as u8 * 4 + rose as u8 * 2 + level as u8;
    }
}
