use nj_bytes::fnv;
use nj_saved::SavedRefused::{
    Damaged, NotSaved, OtherCartridge, OtherScript, Range, Short, Trailing, Version,
};
use nj_saved::{Saved, Seq, read_saved, write_saved};
use std::test::Fail;

const CART: u64 = 0x1122_3344_5566_7788;

const SCRIPT: u64 = 0x99AA_BBCC_DDEE_FF00;

// Two words of two pads, a mark of level 1 to step 3, and generations of one and of two keys. The hash at the end was
// computed by another program.
const FILE: [u8; 88] = [
    78, 74, 83, 86, 2, 0, 0, 0, 136, 119, 102, 85, 68, 51, 34, 17, 0, 255, 238, 221, 204, 187, 170,
    153, 2, 0, 0, 0, 2, 0, 0, 0, 1, 0, 0, 0, 3, 0, 0, 0, 2, 0, 0, 0, 128, 1, 0, 255, 1, 0, 0, 0, 5,
    0, 0, 0, 0, 0, 0, 0, 2, 0, 0, 0, 3, 0, 0, 0, 0, 0, 0, 0, 7, 0, 0, 0, 0, 0, 0, 0, 66, 229, 165,
    82, 112, 79, 219, 90,
];

#[test]
fn a_search_is_written_and_read(rt: HostRuntime) -> Result<(), Fail> {
    let alloc = rt.alloc();
    let first = Seq::from_slice(alloc, &[5])?;
    let second = Seq::from_slice(alloc, &[3, 7])?;
    let saved = Saved {
        cart: CART,
        script: SCRIPT,
        step: 2,
        level: 1,
        until: 3,
        words: Seq::from_slice(alloc, &[0x80, 0x01, 0x00, 0xFF])?,
        generations: Seq::from_vec(vec![in alloc; first, second]?),
    };
    let file = write_saved(alloc, &saved)?;
    assert_eq!(rt; file.as_slice(), FILE.as_slice());
    let read = read_saved(alloc, file.as_slice(), CART, SCRIPT)?;
    assert_eq!(rt; read.words.as_slice(), [0x80, 0x01, 0x00, 0xFF].as_slice());
    let generations = read.generations.as_slice();
    assert_eq!(rt; generations.len(), 2);
    assert_eq!(rt;
        generations[generations.len() - 1].as_slice(),
        [3, 7].as_slice()
    );
    Ok(())
}

// The file with another byte at a place.
fn changed(at: usize, byte: u8) -> [u8; 88] {
    let mut file = FILE;
    if let Some(place) = file.get_mut(at) {
        *place = byte;
    }
    file
}

// The bytes up to the last key, behind which the hash stands.
fn fields(file: &[u8]) -> &[u8] {
    &file[..file.len().min(80)]
}

#[test]
fn changed_bytes_are_refused(rt: HostRuntime) {
    let kept = 0x1222_3344_5566_7788;
    for (at, byte, want) in [
        (3, b'v', NotSaved),
        (4, 9, Version { n: 9 }),
        (4, 1, Trailing { at: 80 }),
        (15, 0x12, OtherCartridge { kept, now: CART }),
        (24, 0, Range { at: 24 }),
        (28, 0, Range { at: 28 }),
        (29, 1, Short { at: 88 }),
        (32, 129, Range { at: 32 }),
        (39, 3, Range { at: 36 }),
        (40, 4, Range { at: 40 }),
        (48, 0, Range { at: 48 }),
        (52, 0, Range { at: 52 }),
        (60, 4, Short { at: 88 }),
        (64, 5, Range { at: 64 }),
        (64, 7, Range { at: 72 }),
    ] {
        let file = changed(at, byte);
        let read = read_saved(rt.alloc(), &file, CART, SCRIPT);
        assert_eq!(rt; read.err(), Some(want));
    }
    let file = changed(45, 2);
    let kept = 0x5ADB_4F70_52A5_E542;
    let now = fnv(fields(&file));
    let read = read_saved(rt.alloc(), &file, CART, SCRIPT);
    assert_eq!(rt; read.err(), Some(Damaged { kept, now }));
    let read = read_saved(rt.alloc(), &file, CART, SCRIPT - 1);
    let (kept, now) = (SCRIPT, SCRIPT - 1);
    assert_eq!(rt; read.err(), Some(OtherScript { kept, now }));
}

// Files that end early or late, and a file of version 1.
#[test]
fn files_end_where_they_say(rt: HostRuntime) -> Result<(), Fail> {
    for at in [0, 3, 43, 47, 60, 87] {
        let mut file = Vec::from_slice(rt.alloc(), &FILE)?;
        file.truncate(at as usize);
        let read = read_saved(rt.alloc(), file.as_slice(), CART, SCRIPT);
        assert_eq!(rt; read.err(), Some(Short { at }));
    }
    let mut longer = Vec::from_slice(rt.alloc(), &FILE)?;
    longer.push(0)?;
    let read = read_saved(rt.alloc(), longer.as_slice(), CART, SCRIPT);
    assert_eq!(rt; read.err(), Some(Trailing { at: 88 }));
    let first = changed(4, 1);
    let read = read_saved(rt.alloc(), fields(&first), CART, SCRIPT)?;
    assert_eq!(rt; read.until, 3);
    Ok(())
}
