//! Three generations of 1, 300 and 400 keys in 1,024 slots: room for 400 more keys takes the first two.

ghost use Rattle.std.specs.Prelude.{◌≡◌, ◌≢◌, ◌≤◌, ◌<◌, ◌^◌, length, IfOk};
ghost use Rattle.std.specs.List.{All};
ghost use Rattle.nj_claims.specs.Tables.{IsTable, entries_in};
ghost use Rattle.nj_seen.specs.Held.{first_claim};

use nj_claims::{ClaimTable, Claimed, Pass, empty_table, owner_of};
use nj_seen::{
    FIRST_CLAIM, Row, Seq, Verdict3, add_keys, fresh, generations, keys_of, publish, room,
    table_of, unseen,
};
use std::alloc::{AllocError, Global};
use std::test::Fail;

// Claims the keys from `first` up to `end`, each for its own number.
fn claim_keys(table: &ClaimTable, pass: &mut Pass, first: u64, end: u64)
    requires own { pass.old.table ≡ table.now.id }
    requires keys { (0 < first) × (end < 2 ^ 32) }
    ensures same { (pass.new.table ≡ pass.old.table) × (pass.new.is_root ≡ pass.old.is_root)
        × (pass.new.out ≡ pass.old.out) }
{
    for key in first..end {
        let _claimed = table.claim(pass, key, FIRST_CLAIM + key);
    }
}

// Publishes a step, which leaves steps alone as owners.
fn publish_step(words: &mut [u64], step: u64)
    requires table { IsTable words.old }
    requires step { step < first_claim }
    ensures table { IsTable words.new }
    ensures size { length words.new ≡ length words.old }
    ensures steps { All (λ entry. entry.1 < first_claim) (entries_in words.new) }
{
    publish(words, step);
}

// The table with one generation more, of these keys.
fn with_generation(
    alloc: Global,
    words: Vec<u64>,
    first: u64,
    end: u64,
    step: u64,
) -> Result<Vec<u64>, AllocError>
    requires table { IsTable words.items }
    requires keys { (0 < first) × (end < 2 ^ 32) }
    requires step { step < first_claim }
    ensures table { IfOk result (λ after. IsTable after.items) }
    ensures size { IfOk result (λ after. length after.items ≡ length words.items) }
    ensures steps { IfOk result (λ after. All (λ entry. entry.1 < first_claim) (entries_in after.items)) }
{
    let (table, mut pass) = ClaimTable::open(alloc, words)?;
    claim_keys(&table, &mut pass, first, end);
    let mut after = table.close(pass);
    publish_step(after.as_mut_slice(), step);
    Ok(after)
}

// The three generations.
fn three_generations(alloc: Global) -> Result<Vec<u64>, AllocError>
    ensures table { IfOk result (λ words. IsTable words.items) }
    ensures size { IfOk result (λ words. length words.items ≡ 2048) }
    ensures steps { IfOk result (λ words. All (λ entry. entry.1 < first_claim) (entries_in words.items)) }
{
    let none = empty_table(alloc, 10)?;
    let one = with_generation(alloc, none, 1, 2, 0)?;
    let two = with_generation(alloc, one, 2, 302, 1)?;
    with_generation(alloc, two, 302, 702, 2)
}

fn row(number: u64, key: u64) -> Row
    ensures { result.number ≡ number }
{
    Row {
        number,
        key,
        reward: 0,
        level: 0,
        verdict: Verdict3::Go,
        pad: 0,
        bucket: [0; 4],
    }
}

#[test]
fn forgotten_keys_are_fresh_to_claims(rt: HostRuntime) -> Result<(), Fail> {
    let words = three_generations(rt.alloc())?;
    let rest = room(rt.alloc(), &words, 2, 200)?;
    assert!(rt; owner_of(&rest, 1).is_none());
    assert!(rt; owner_of(&rest, 301).is_none());
    assert!(rt; owner_of(&rest, 701) == Some(2));
    let (table, mut pass) = ClaimTable::open(rt.alloc(), rest)?;
    assert!(rt; table.claim(&mut pass, 301, FIRST_CLAIM + 7) == Claimed::Least);
    assert!(rt; table.claim(&mut pass, 701, FIRST_CLAIM + 8) == Claimed::Before(2));
    let mut closed = table.close(pass);
    assert!(rt; fresh(&closed, &row(7, 301)));
    assert!(rt; !fresh(&closed, &row(8, 701)));
    publish(&mut closed, 3);
    assert!(rt; owner_of(&closed, 301) == Some(3));
    assert!(rt; owner_of(&closed, 701) == Some(2));
    Ok(())
}

#[test]
fn forgotten_keys_are_fresh_to_one_thread(rt: HostRuntime) -> Result<(), Fail> {
    let words = three_generations(rt.alloc())?;
    let rows = [row(7, 301), row(8, 701), row(9, 301)];
    let fresh = unseen(rt.alloc(), &rows, &words, 2)?;
    let keys = keys_of(rt.alloc(), &fresh)?;
    assert!(rt; keys.as_slice() == [301_u64].as_slice());
    let mut rest = room(rt.alloc(), &words, 1, 324)?;
    assert!(rt; owner_of(&rest, 1).is_none());
    assert!(rt; owner_of(&rest, 301) == Some(1));
    add_keys(&mut rest, &[1], 3);
    assert!(rt; owner_of(&rest, 1) == Some(3));
    Ok(())
}

#[test]
fn a_generation_comes_back(rt: HostRuntime) -> Result<(), Fail> {
    let newest = Seq::from_vec(vec![in rt.alloc(); 7]?);
    let seen = Seq::from_vec(vec![in rt.alloc(); newest]?);
    let (words, keys) = table_of(rt.alloc(), 10, &seen, 5, 1023)?;
    assert!(rt; keys.oldest == 5 && keys.count == 1);
    assert!(rt; owner_of(&words, 7) == Some(5));
    let told = generations(rt.alloc(), &words, keys, 5)?;
    assert!(rt; told.len() == 1);
    assert!(rt; told.as_slice()[0].as_slice() == [7_u64].as_slice());
    Ok(())
}
