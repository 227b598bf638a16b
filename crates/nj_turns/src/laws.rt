//! What a dry turn tells of other buses, as the contract of a function that does nothing.

ghost use Rattle.std.specs.Prelude.{ℕ, List, Bool, Option, ◌*◌, ◌≤◌};
ghost use Rattle.nj_banked.specs.Banks.{Banks};
ghost use Rattle.nj_cpu.specs.declared.state.Cpu.{Cpu as Processor};
ghost use Rattle.nj_turns.specs.Dry.{begun};
ghost use Rattle.nj_turns.specs.Turn.{IsTurn, Rests, Turns};

use nj_isa::Bus;

/// On a bus that rests for so many cycles, as many turns as end within them are those of the dry bus, one after
/// another.
pub fn turns_are_the_same_on_each_resting_bus<B: Bus>()
    ensures { (place : ℕ → ℕ → B.Held) (ram : List ℕ) (board : Banks) (status : Option ℕ) (line : Bool) (limit : ℕ)
        → Rests B.acts place ram board status line limit → (cpu : Processor) (last cycles n : ℕ)
        → IsTurn cpu (begun ram board status line last) cycles → n * cycles ≤ limit
        → Turns B.acts place limit cpu last (n * cycles) }
{}
