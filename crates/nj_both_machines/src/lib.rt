//! The two machines side by side. They keep their pictures differently and are one machine in meaning: after every
//! frame they have the same image.
#![tactic(auto)]

ghost use Rattle.std.specs.Prelude.{◌≡◌, None, true, length, IfOk};
ghost use Rattle.nj_machine.specs.State.{rom_of};
ghost use Rattle.nj_machine.specs.Image.{image_len};

pub use nj_machine::{Cart, Pad};
use nj_machine::{Machine, PlainMachine, Steps};
use std::alloc::{AllocError, Global};
use std::marker::Brand;
use std::sync::ledger::{Blank, Ledger};

// Plays one frame on both machines, which are in one state, and tells whether their images are the same after it.
fn is_same_after<L: Ledger>(
    machine: &mut Machine,
    plain: &mut PlainMachine,
    pad: Pad,
    steps: &mut Steps<L>,
    image: &mut [u8],
    plain_image: &mut [u8],
) -> bool
    requires one { machine.old ≡ plain.old }
    requires image { length image.old ≡ image_len (rom_of machine.old) }
    requires plain_image { length plain_image.old ≡ image_len (rom_of machine.old) }
    ensures same { result ≡ true }
    ensures one { machine.new ≡ plain.new }
    ensures cartridge { rom_of machine.new ≡ rom_of machine.old }
{
    let _ = machine.frame(pad, steps);
    let _ = plain.frame(pad, steps);
    machine.save(image);
    plain.save(plain_image);
    *image == *plain_image
}

// Plays a movie on both machines, which are in one state: the number of the first frame after which their images
// differ.
fn differs_after<L: Ledger>(
    blank: Blank,
    machine: &mut Machine,
    plain: &mut PlainMachine,
    pads: &[Pad],
    image: &mut [u8],
    plain_image: &mut [u8],
) -> Option<usize>
    requires blank { blank.name ≡ L.name }
    requires one { machine.old ≡ plain.old }
    requires image { length image.old ≡ image_len (rom_of machine.old) }
    requires plain_image { length plain_image.old ≡ image_len (rom_of machine.old) }
    ensures { result ≡ None }
{
    let mut steps = Steps::<L>::open(blank);
    for (at, pad) in pads.iter().enumerate() {
        if !is_same_after(machine, plain, *pad, &mut steps, image, plain_image) {
            return Some(at);
        }
    }
    None
}

/// Plays a movie on both machines from power-on, one frame for each pad, and compares their images after every frame:
/// the number of the first frame, counted from 0, after which they differ. There is none.
pub fn first_difference(
    alloc: Global,
    cart: &Cart,
    pads: &[Pad],
) -> Result<Option<usize>, AllocError>
    ensures same { IfOk result (λ found. found ≡ None) }
{
    let mut machine = Machine::power_on(alloc, cart)?;
    let mut plain = PlainMachine::power_on(alloc, cart)?;
    let mut image = vec![in alloc; 0u8; machine.image_len()]?;
    let mut plain_image = vec![in alloc; 0u8; plain.image_len()]?;
    Ok(differs_after::<Brand>(
        Blank::new(1),
        &mut machine,
        &mut plain,
        pads,
        image.as_mut_slice(),
        plain_image.as_mut_slice(),
    ))
}

#[cfg(test)]
mod tests;
