ghost use Rattle.std.specs.Prelude.{◌≡◌, length, Ok, false};
ghost use Rattle.nj_ines.specs.Reading.{cartridge_of};
ghost use Rattle.nj_workload.specs.Game.{game_file, tables_of, program_memory, zeros};

/// The law that the cartridge of each number takes 24,592 bytes: a header, 16 KiB and 8 KiB.
#[tactic(auto, using(crate::proofs::Sizes::file_length))]
pub fn game_file_size(number: u64)
    ensures { length (game_file number) ≡ 24592 }
{}

/// The law that nothing is refused of the cartridge of any number: it is one of NROM, whose memories are those of its
/// definition, with horizontal mirroring.
#[tactic(auto, using(crate::proofs::Readable::game_read))]
pub fn game_file_is_read(number: u64)
    ensures { cartridge_of (game_file number) ≡ Ok (record {
      prg = program_memory (tables_of number);
      chr = zeros 8192;
      chr_ram = false;
      vertical = false;
      mapper = 0;
    }) }
{}
