//! The image of a machine's state, from which the state is made again.

ghost use Rattle.std.specs.Prelude.{◌≡◌, ◌+◌, ◌*◌, ◌/◌, ◌%◌, ◌==◌, ◌≤◌, ◌<◌, ◌++◌, ℕ, List, Bool, true, false, not, length, take, drop, replicate, if◌then◌else◌};
ghost use Rattle.nj_dots.specs.Image.{flag_byte, flag_at, overwritten};
ghost use Rattle.nj_machine.specs.State.{State, rom_of};
ghost use Rattle.nj_machine.specs.Frame.{IsReady, frames};
ghost use Rattle.nj_machine.specs.Image.{note_byte, page_flag, page_byte, rest_bytes, image_len, image_of, note_at, page_at, port_at, cpu_at, of_image, IsImage};

use crate::frames::Console;
use nj_banked::Banked;
use nj_board::Board;
use nj_cpu::{Cpu, Flags, Note};
use nj_dots::Picture;
use nj_pad::Port;

// Copies bytes to a place of an image.
fn place(image: &mut [u8], at: usize, bytes: &[u8])
    requires { at + length bytes.now ≤ length image.old }
    ensures { image.new ≡ overwritten at bytes.now image.old }
{
    image[at..at + bytes.len()].copy_from_slice(bytes);
}

fn flag_byte(flag: bool) -> u8
    ensures { result ≡ flag_byte flag }
{
    if flag { 1 } else { 0 }
}

fn flag(byte: u8) -> bool
    ensures { result ≡ not (byte == 0) }
{
    byte != 0
}

fn note_byte(note: Note) -> u8
    ensures { result ≡ note_byte note }
{
    match note {
        Note::None => 0,
        Note::Late => 1,
        Note::Due => 2,
    }
}

// The note at a place of the bytes.
fn note_at(bytes: &[u8], at: usize) -> Note
    requires { at < length bytes.now }
    ensures { result ≡ note_at bytes.now at }
{
    match bytes[at] {
        0 => Note::None,
        1 => Note::Late,
        _ => Note::Due,
    }
}

fn page_flag(page: Option<u8>) -> u8
    ensures { result ≡ page_flag page }
{
    match page {
        Some(_) => 1,
        None => 0,
    }
}

fn page_byte(page: Option<u8>) -> u8
    ensures { result ≡ page_byte page }
{
    match page {
        Some(page) => page,
        None => 0,
    }
}

// The page that waits for its copy, at a place of the bytes.
fn page_at(bytes: &[u8], at: usize) -> Option<u8>
    requires { at + 1 < length bytes.now }
    ensures { result ≡ page_at bytes.now at }
{
    if flag(bytes[at]) {
        Some(bytes[at + 1])
    } else {
        None
    }
}

// The port at a place of the bytes.
fn port_at(bytes: &[u8], at: usize) -> Port
    requires { at + 2 < length bytes.now }
    ensures { result ≡ port_at bytes.now at }
{
    Port {
        strobe: flag(bytes[at]),
        latch: bytes[at + 1],
        count: bytes[at + 2],
    }
}

// The flags among the bytes.
#[tactic(auto, unfolding(crate::specs::Image::cpu_at))]
fn flags_of(bytes: &[u8]) -> Flags
    requires { length bytes.now ≡ 32 }
    ensures { result ≡ (cpu_at bytes.now).flags }
{
    Flags {
        n: flag(bytes[6]),
        v: flag(bytes[7]),
        d: flag(bytes[8]),
        i: flag(bytes[9]),
        z: flag(bytes[10]),
        c: flag(bytes[11]),
    }
}

// The processor at the head of the bytes.
#[tactic(auto, unfolding(crate::specs::Image::cpu_at))]
fn cpu_at(bytes: &[u8]) -> Cpu
    requires { length bytes.now ≡ 32 }
    ensures { result ≡ cpu_at bytes.now }
{
    Cpu {
        a: bytes[0],
        x: bytes[1],
        y: bytes[2],
        s: bytes[3],
        pc: u16::from(bytes[4]) + 256 * u16::from(bytes[5]),
        flags: flags_of(bytes),
        note: note_at(bytes, 12),
        line: flag(bytes[13]),
        jammed: flag(bytes[14]),
    }
}

// Working memory in an image.
fn ram_part(image: &[u8]) -> &[u8]
    requires { 4480 ≤ length image.now }
    ensures part { result.now ≡ take 2048 image.now }
    ensures len { length result.now ≡ 2048 }
{
    let (ram, _) = image.split_at(2048);
    ram
}

// The 32 bytes of processor, ports, data bus and bank in an image.
fn rest_part(image: &[u8]) -> &[u8]
    requires { 4480 ≤ length image.now }
    ensures part { result.now ≡ take 32 (drop 4448 image.now) }
    ensures len { length result.now ≡ 32 }
{
    &image[4448..4480]
}

// Writes pattern memory into an image, where it is RAM.
fn place_pattern(image: &mut [u8], board: &Banked)
    requires { board.now.chr_ram ≡ true → length image.old ≡ 12672 }
    ensures { image.new ≡ (if board.now.chr_ram then overwritten 4480 board.now.chr image.old else image.old) }
{
    if board.has_chr_ram() {
        board.fits();
        place(image, 4480, board.pattern());
    }
}

// Takes pattern memory from an image, where it is RAM.
fn take_pattern(board: &mut Banked, image: &[u8])
    requires { board.old.chr_ram ≡ true → length image.now ≡ 12672 }
    ensures { board.new
        ≡ record board.old { chr = (if board.old.chr_ram then drop 4480 image.now else board.old.chr) } }
{
    if board.has_chr_ram() {
        let (_, pattern) = image.split_at(4480);
        board.load_pattern(pattern);
    }
}

impl<P: Picture + Drop> Console<P> {
    /// The length of this machine's image: 4,480 bytes, or 12,672 where pattern memory is RAM.
    #[tactic(auto, unfolding(crate::specs::Image::image_len, crate::specs::State::rom_of))]
    pub fn image_len(&self) -> usize
        ensures { result ≡ image_len (rom_of self.now) }
    {
        if self.recorder.cells.board.has_chr_ram() {
            12_672
        } else {
            4_480
        }
    }

    // Processor, ports, data bus and bank as bytes.
    #[tactic(auto, unfolding(crate::specs::Image::rest_bytes))]
    fn rest_bytes(&self) -> [u8; 32]
        ensures { result ≡ rest_bytes self.now ++ replicate 6 0 }
    {
        let cpu = self.cpu;
        let one = self.recorder.cells.port_one;
        let two = self.recorder.cells.port_two;
        [
            cpu.a,
            cpu.x,
            cpu.y,
            cpu.s,
            (cpu.pc % 256) as u8,
            (cpu.pc / 256) as u8,
            flag_byte(cpu.flags.n),
            flag_byte(cpu.flags.v),
            flag_byte(cpu.flags.d),
            flag_byte(cpu.flags.i),
            flag_byte(cpu.flags.z),
            flag_byte(cpu.flags.c),
            note_byte(cpu.note),
            flag_byte(cpu.line),
            flag_byte(cpu.jammed),
            flag_byte(one.strobe),
            one.latch,
            one.count,
            flag_byte(two.strobe),
            two.latch,
            two.count,
            self.recorder.cells.bus_byte,
            page_flag(self.recorder.cells.page),
            page_byte(self.recorder.cells.page),
            flag_byte(self.recorder.cells.odd),
            self.recorder.cells.board.bank(),
            0,
            0,
            0,
            0,
            0,
            0,
        ]
    }
    /// Writes the image of the state, which is then as before.
    pub fn save(&mut self, image: &mut [u8])
        requires { length image.old ≡ image_len (rom_of self.old) }
        ensures image { image.new ≡ image_of self.old }
        ensures is_image { IsImage (rom_of self.old) image.new }
        ensures same { self.new ≡ self.old }
    {
        let rest = self.rest_bytes();
        self.recorder
            .cells
            .picture
            .settle(self.recorder.cells.board.pattern());
        place(image, 0, &self.recorder.cells.ram);
        self.recorder.cells.picture.put(image);
        place(image, 4448, &rest);
        place_pattern(image, &self.recorder.cells.board);
    }

    /// Makes the machine the state whose image this is.
    pub fn load(&mut self, image: &[u8])
        requires { IsImage (rom_of self.old) image.now }
        ensures state { self.new ≡ of_image (rom_of self.old) image.now }
        ensures cartridge { rom_of self.new ≡ rom_of self.old }
    {
        let bytes = rest_part(image);
        let pattern = self.recorder.cells.board.pattern();
        self.recorder.cells.picture.settle(pattern);
        self.recorder.cells.picture.get(image);
        self.recorder.cells.ram.copy_from_slice(ram_part(image));
        take_pattern(&mut self.recorder.cells.board, image);
        self.recorder.cells.board.set_bank(bytes[25]);
        self.cpu = cpu_at(bytes);
        self.recorder.cells.bus_byte = bytes[21];
        self.recorder.cells.page = page_at(bytes, 22);
        self.recorder.cells.odd = flag(bytes[24]);
        self.recorder.cells.port_one = port_at(bytes, 15);
        self.recorder.cells.port_two = port_at(bytes, 18);
    }
}
