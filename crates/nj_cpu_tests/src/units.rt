//! Units over a bus that answers reads from a list and keeps a log.

ghost use Rattle.std.specs.Prelude.{◌≡◌, ◌+◌, ◌==◌, ℕ, List, Bool, Option, None, slice_index, min};

use nj_cpu::{
    Bus, Cpu, Flags, Note, UnitEnd, cycles_are_published, instructions_go_on_behind_themselves,
    jams_are_those_of_the_table, power_on, pulled_a_is_pushed_a, returns_come_back_behind_calls,
    unit,
};

/// Answers the n-th access, if it is a read, by the n-th byte of `answers`.
#[derive(Drop)]
struct ListBus {
    answers: [u8; 16],
    next: usize,
    places: [u16; 16],
    written: [u8; 16],
    cycles: u32,
    rises_at: usize,
    page: Option<u8>,
    odd: bool,
}

impl ListBus {
    fn log(&mut self, at: u16, value: u8)
        ensures answers { self.new.answers ≡ self.old.answers }
        ensures next { self.new.next ≡ min 16 (self.old.next + 1) }
        ensures rises_at { self.new.rises_at ≡ self.old.rises_at }
        ensures page { self.new.page ≡ self.old.page }
        ensures odd { self.new.odd ≡ self.old.odd }
    {
        if self.next < 16 {
            self.places[self.next] = at;
            self.written[self.next] = value;
        }
        self.next = self.next.saturating_add(1).min(16);
        self.cycles = self.cycles.saturating_add(1);
    }
}

impl Bus for ListBus {
    ghost Held = { (List ℕ) × ℕ × ℕ × (Option ℕ) × Bool };

    ghost held = { λ b. (b.answers, b.next, b.rises_at, b.page, b.odd) };

    ghost acts = { record {
      byte = λ h at. slice_index h.0 h.1;
      after_read = λ h at. (h.0, min 16 (h.1 + 1), h.2, h.3, h.4);
      after_write = λ h at value. (h.0, min 16 (h.1 + 1), h.2, h.3, h.4);
      line = λ h. h.1 == h.2;
      page = λ h. h.3;
      after_take = λ h. (h.0, h.1, h.2, None, h.4);
      odd = λ h. h.4;
    } };

    fn read(&mut self, at: u16) -> u8 {
        let byte = if self.next < 16 {
            self.answers[self.next]
        } else {
            0
        };
        self.log(at, byte);
        byte
    }

    fn write(&mut self, at: u16, value: u8) {
        self.log(at, value);
    }

    fn nmi_line(&self) -> bool {
        self.next == self.rises_at
    }

    fn take_dma(&mut self) -> Option<u8> {
        self.page.take()
    }

    fn odd(&self) -> bool {
        self.odd
    }
}

fn bus_of(answers: [u8; 16]) -> ListBus {
    ListBus {
        answers,
        next: 0,
        places: [0; 16],
        written: [0; 16],
        cycles: 0,
        rises_at: 99,
        page: None,
        odd: false,
    }
}

#[test]
fn indirect_jump_stays_in_its_page(rt: HostRuntime) {
    let mut bus = bus_of([
        0x6C, 0xFF, 0x02, 0x34, 0x12, 0, 0, 0, 0, 0, 0, 0, 0, 0, 0, 0,
    ]);
    let mut cpu = power_on(0x8000);
    assert_eq!(rt; unit(&mut cpu, &mut bus), UnitEnd::Done);
    assert_eq!(rt; cpu.pc, 0x1234);
    assert_eq!(rt; bus.cycles, 5);
    assert_eq!(rt; bus.places[3], 0x02FF);
    assert_eq!(rt; bus.places[4], 0x0200);
}

#[test]
fn indexed_load_reads_early(rt: HostRuntime) {
    let mut bus = bus_of([
        0xBD, 0xF2, 0x20, 0x80, 0x00, 0, 0, 0, 0, 0, 0, 0, 0, 0, 0, 0,
    ]);
    let mut cpu = power_on(0x8000);
    cpu.x = 0x10;
    assert_eq!(rt; unit(&mut cpu, &mut bus), UnitEnd::Done);
    assert_eq!(rt; bus.cycles, 5);
    assert_eq!(rt; bus.places[3], 0x2002);
    assert_eq!(rt; bus.places[4], 0x2102);
    assert!(rt; cpu.a < 128);
}

#[test]
fn pushed_flags_tell_who_pushed(rt: HostRuntime) {
    for (opcode, place, want) in [(0x08, 2, 0x30), (0x00, 4, 0x30)] {
        let mut bus = bus_of([opcode, 0, 0, 0, 0, 0, 0, 0, 0, 0, 0, 0, 0, 0, 0, 0]);
        let mut cpu = power_on(0x8000);
        cpu.flags.i = false;
        assert_eq!(rt; unit(&mut cpu, &mut bus), UnitEnd::Done);
        assert_eq!(rt; bus.written[place], want);
    }
    let mut bus = bus_of([0, 0, 0, 0, 0, 0x34, 0x12, 0, 0, 0, 0, 0, 0, 0, 0, 0]);
    let mut cpu = power_on(0x8000);
    cpu.flags.i = false;
    cpu.note = Note::Due;
    assert_eq!(rt; unit(&mut cpu, &mut bus), UnitEnd::Done);
    assert_eq!(rt; bus.written[4], 0x20);
    assert_eq!(rt; bus.places[5], 0xFFFA);
    assert_eq!(rt; cpu.pc, 0x1234);
    assert_eq!(rt; bus.cycles, 7);
    assert_eq!(rt; cpu.note, Note::None);
}

#[test]
fn a_rise_in_the_last_cycle_is_late(rt: HostRuntime) {
    for (rises_at, want) in [(1, Note::Due), (2, Note::Late), (3, Note::None)] {
        let mut bus = bus_of([0xEA, 0, 0xEA, 0, 0, 0, 0, 0, 0, 0, 0, 0, 0, 0, 0, 0]);
        bus.rises_at = rises_at;
        let mut cpu = power_on(0x8000);
        let _ = unit(&mut cpu, &mut bus);
        assert_eq!(rt; cpu.note, want, "at {rises_at}");
    }
}

#[test]
fn a_copy_takes_513_or_514_cycles(rt: HostRuntime) {
    for (odd, cycles) in [(false, 513), (true, 514)] {
        let mut bus = bus_of([7; 16]);
        bus.page = Some(0x02);
        bus.odd = odd;
        let mut cpu = power_on(0x8000);
        assert_eq!(rt; unit(&mut cpu, &mut bus), UnitEnd::Done);
        assert_eq!(rt; bus.cycles, cycles);
        assert_eq!(rt; cpu.pc, 0x8000);
    }
}

// The opcode that stops an NMOS 6502, and one of the unstable ones.
#[test]
fn a_jam_stays_at_its_opcode(rt: HostRuntime) {
    for opcode in [0x02, 0x8B] {
        let mut bus = bus_of([opcode; 16]);
        let mut cpu = power_on(0x8000);
        assert_eq!(rt; unit(&mut cpu, &mut bus), UnitEnd::Jammed);
        assert_eq!(rt; unit(&mut cpu, &mut bus), UnitEnd::Jammed);
        assert_eq!(rt; cpu.pc, 0x8000);
        assert_eq!(rt; bus.cycles, 1);
    }
}

// LAX $10, ARR #$FF, SBX #$01 and ISC $10.
#[test]
fn unofficial_opcodes_do_two_things(rt: HostRuntime) {
    for (bytes, a, x, cycles, want_a, want_x, negative) in [
        ([0xA7, 0x10, 0x80], 0, 0, 3, 0x80, 0x80, true),
        ([0x6B, 0xFF, 0], 0xC0, 3, 2, 0xE0, 3, true),
        ([0xCB, 0x01, 0], 0x0F, 3, 2, 0x0F, 2, false),
        ([0xE7, 0x10, 0xFF], 5, 9, 5, 5, 9, false),
    ] {
        let mut bus = bus_of([
            bytes[0], bytes[1], bytes[2], 0, 0, 0, 0, 0, 0, 0, 0, 0, 0, 0, 0, 0,
        ]);
        let mut cpu = power_on(0x8000);
        cpu.a = a;
        cpu.x = x;
        cpu.flags.c = true;
        assert_eq!(rt; unit(&mut cpu, &mut bus), UnitEnd::Done);
        assert_eq!(rt; bus.cycles, cycles);
        assert_eq!(rt; cpu.a, want_a);
        assert_eq!(rt; cpu.x, want_x);
        assert_eq!(rt; cpu.flags.n, negative);
        assert!(rt; cpu.flags.c && !cpu.flags.v);
        // ISC writes the byte back, and then the byte and one.
        if bytes[0] == 0xE7 {
            assert_eq!(rt; bus.places[4], 0x10);
            assert_eq!(rt; bus.written[3], 0xFF);
            assert_eq!(rt; bus.written[4], 0);
        }
    }
}

// SLO ($10,X) and a NOP at $20FF,X with X 1.
#[test]
fn unofficial_opcodes_take_their_cycles(rt: HostRuntime) {
    for (opcode, low, high, cycles) in [(0x03, 0x10, 0, 8), (0x1C, 0xFF, 0x20, 5)] {
        let mut bus = bus_of([opcode, low, high, 0, 0, 0, 0, 0, 0, 0, 0, 0, 0, 0, 0, 0]);
        let mut cpu = power_on(0x8000);
        cpu.x = 1;
        assert_eq!(rt; unit(&mut cpu, &mut bus), UnitEnd::Done);
        assert_eq!(rt; bus.cycles, cycles);
    }
}

#[test]
fn the_laws_are_of_any_bus() {
    cycles_are_published::<ListBus>();
    instructions_go_on_behind_themselves::<ListBus>();
    jams_are_those_of_the_table::<ListBus>();
    pulled_a_is_pushed_a::<ListBus>();
    returns_come_back_behind_calls::<ListBus>();
}
