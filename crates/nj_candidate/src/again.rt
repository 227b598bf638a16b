//! The states of rows, run again into a new pool.

ghost use Rattle.std.specs.Prelude.{◌≡◌, ◌≤◌, ◌<◌, ◌+◌, ◌*◌, ◌/◌, ◌^◌, [], ◌∷◌, ◌++◌, All, length, get_or, IfOk, OnOk};
ghost use Rattle.nj_machine.specs.State.{rom_of};
ghost use Rattle.nj_machine.specs.Image.{image_len, IsImage};
ghost use Rattle.nj_pool.specs.Front.{with_birth, with_births, bytes_held};
ghost use Rattle.nj_candidate.specs.Again.{Before, statuses_of, parent_of, birth_of, image_again, judged_again, AreRunFrom};

use crate::candidate::run_step;
use crate::opening::{image_room, save_into, want_of_memory};
use nj_machine::Machine;
use nj_pad::Pad;
use nj_pool::{FrontPool, a_need_is_bounded};
use nj_rows::Row;
use nj_rules::{Judged, Status};
use nj_script::Script;
use nj_steps::Steps;
use std::alloc::{AllocError, Global};
use std::sync::ledger::Ledger;

/// The states of rows in a pool, and how the rules judge them.
#[derive(Drop)]
pub struct Again {
    /// The states, in their order.
    pub pool: FrontPool,
    /// How the rules judge each.
    pub judged: Vec<Judged>,
}

// The status at a place.
fn status_at(judged: &[Judged], place: usize) -> Status
    requires { place < length judged.now }
    ensures { result.0 ≡ get_or (statuses_of judged.now) place 0 }
{
    judged[place].status
}

// Copies the image at a place of the front.
fn load_into(front: &FrontPool, place: usize, image: &mut Vec<u8>)
    requires place { place < length front.now.images }
    requires long { length image.old.items ≡ length front.now.base }
    ensures image { image.new.items ≡ get_or front.now.images place [] }
    ensures long { length image.new.items ≡ length front.now.base }
{
    front.load(place, image.as_mut_slice());
}

// The state of a row, run again from its parent's image; `image` becomes its own.
fn child_again<L: Ledger>(
    machine: &mut Machine,
    front: &FrontPool,
    judged: &[Judged],
    row: &Row,
    script: &Script,
    image: &mut Vec<u8>,
    steps: &mut Steps<L>,
) -> Judged
    requires parent { parent_of row.now < length front.now.images }
    requires judged { length judged.now ≡ length front.now.images }
    requires images { All (IsImage (rom_of machine.old)) front.now.images }
    requires size { length front.now.base ≡ image_len (rom_of machine.old) }
    requires long { length image.old.items ≡ length front.now.base }
    ensures judged { let before : Before = record {
      rom = rom_of machine.old;
      script = script.now;
      images = front.now.images;
      statuses = statuses_of judged.now;
    } in
        result ≡ judged_again before row.now }
    ensures image { let before : Before = record {
      rom = rom_of machine.old;
      script = script.now;
      images = front.now.images;
      statuses = statuses_of judged.now;
    } in
        image.new.items ≡ image_again before row.now }
    ensures long { length image.new.items ≡ length front.now.base }
    ensures cartridge { rom_of machine.new ≡ rom_of machine.old }
    ensures frames { steps.new ≤ steps.old + script.now.hold }
    ensures never_falls { steps.old ≤ steps.new }
{
    let parent = (row.number / 256) as usize;
    load_into(front, parent, image);
    let status = status_at(judged, parent);
    let told = run_step(
        machine,
        image.as_slice(),
        status,
        Pad(row.pad),
        script,
        steps,
    );
    save_into(machine, image);
    told
}

impl Again {
    // Adds the state of a row.
    fn push(&mut self, image: &[u8], row: &Row, judged: Judged) -> Result<(), AllocError>
        requires long { length image.now ≡ length self.old.pool.base }
        requires room { bytes_held self.old.pool + (length image.now + 16) ≤ self.old.pool.limit }
        requires parent { parent_of row.now < 2 ^ 32 }
        ensures pool { OnOk result (self.new.pool ≡ with_birth image.now (birth_of row.now) self.old.pool) }
        ensures bytes { OnOk result (bytes_held self.new.pool ≤ bytes_held self.old.pool + (length image.now + 16)) }
        ensures judged { OnOk result (self.new.judged.items ≡ self.old.judged.items ++ judged ∷ []) }
    {
        let parent = (row.number / 256) as u32;
        a_need_is_bounded();
        let _base = self.pool.base();
        match self.pool.push(image, parent, Pad(row.pad)) {
            Ok(()) => {}
            Err(refused) => return Err(want_of_memory(refused)),
        }
        self.judged.push(judged)?;
        Ok(())
    }

    /// Adds states over the same base, for which there is room, behind these.
    pub fn append(&mut self, other: Again) -> Result<(), AllocError>
        requires base { other.pool.base ≡ self.old.pool.base }
        requires births { other.pool.words ≡ [] }
        requires room { bytes_held self.old.pool + bytes_held other.pool ≤ self.old.pool.limit }
        ensures pool { OnOk result (self.new.pool ≡ with_births self.old.pool other.pool) }
        ensures judged { OnOk result (self.new.judged.items ≡ self.old.judged.items ++ other.judged.items) }
    {
        let Again { pool, judged } = other;
        match self.pool.append(pool) {
            Ok(()) => {}
            Err(refused) => return Err(want_of_memory(refused)),
        }
        self.judged.extend_from_slice(judged.as_slice())?;
        Ok(())
    }
}

/// Runs the states of rows again into a pool with this limit, one after another.
pub fn run_rows<L: Ledger>(
    alloc: Global,
    machine: &mut Machine,
    front: &FrontPool,
    judged: &[Judged],
    rows: &[Row],
    script: &Script,
    limit: u64,
    steps: &mut Steps<L>,
) -> Result<Again, AllocError>
    requires parents { All (λ row. parent_of row < length front.now.images) rows.now }
    requires few { length front.now.images ≤ 2 ^ 20 }
    requires judged { length judged.now ≡ length front.now.images }
    requires images { All (IsImage (rom_of machine.old)) front.now.images }
    requires size { length front.now.base ≡ image_len (rom_of machine.old) }
    requires room { length rows.now * (length front.now.base + 16) ≤ limit }
    ensures again { let before : Before = record {
      rom = rom_of machine.old;
      script = script.now;
      images = front.now.images;
      statuses = statuses_of judged.now;
    } in
        IfOk result (λ again. AreRunFrom before front.now.base limit rows.now again.pool again.judged.items) }
    ensures frames { steps.new ≤ steps.old + script.now.hold * length rows.now }
    ensures never_falls { steps.old ≤ steps.new }
{
    let mut image = image_room(alloc, machine)?;
    let pool = FrontPool::new(alloc, front.base(), limit)?;
    let mut again = Again {
        pool,
        judged: Vec::with_capacity(alloc, rows.len())?,
    };
    for row in rows {
        let told = child_again(machine, front, judged, row, script, &mut image, steps);
        again.push(image.as_slice(), row, told)?;
    }
    Ok(again)
}
