ghost use Rattle.std.specs.Prelude.{◌≡◌, ◌++◌, ◌∷◌, ◌&&◌, Some, None, MatchOption, IfOk, OnOk, suc, true};
ghost use Rattle.lq_codec.specs.Codec.{both, mapped};
ghost use Rattle.lq_codec.specs.State.{OnTrue, is_below_level};
ghost use Rattle.lq_codec.specs.Queries.{as_both, as_either, as_turned, compared, in_both, in_either, in_turned, test_codec};

use crate::coded::{Coded, append_at, append_two_at};
use lq_base::{Boxed, NoMemory};
use lq_model::{Op, Operand, Test};
use std::alloc::Global;

// A test in which fewer than so many stand in one another.
#[cycle(reading)]
#[tactic(auto, using(crate::proofs::TestLemmas::at_level, crate::proofs::TestLemmas::no_level))]
fn test_in(alloc: Global, bytes: &[u8], levels: usize) -> Result<Option<(Test, &[u8])>, NoMemory>
    ensures { IfOk result (λ found. MatchOption found ((test_codec levels).read bytes.now ≡ None)
        (λ next. (test_codec levels).read bytes.now ≡ Some (next.0, next.1.now))) }
{
    if levels == 0 {
        return Ok(None);
    }
    some_test_in(alloc, bytes, levels - 1)
}

#[cycle(reading)]
fn boxed_in(
    alloc: Global,
    bytes: &[u8],
    levels: usize,
) -> Result<Option<(Boxed<Test>, &[u8])>, NoMemory>
    ensures { IfOk result (λ found. MatchOption found ((test_codec levels).read bytes.now ≡ None)
        (λ next. (test_codec levels).read bytes.now ≡ Some (next.0, next.1.now))) }
{
    match test_in(alloc, bytes, levels)? {
        Some((test, rest)) => {
            let boxed = Boxed::new(alloc, test)?;
            Ok(Some((boxed, rest)))
        }
        None => Ok(None),
    }
}

#[cycle(reading)]
fn two_in(
    alloc: Global,
    bytes: &[u8],
    levels: usize,
) -> Result<Option<((Boxed<Test>, Boxed<Test>), &[u8])>, NoMemory>
    ensures { IfOk result (λ found. MatchOption found
        ((both (test_codec levels) (test_codec levels)).read bytes.now ≡ None)
        (λ next. (both (test_codec levels) (test_codec levels)).read bytes.now
        ≡ Some (next.0, next.1.now))) }
{
    let Some((a, rest)) = boxed_in(alloc, bytes, levels)? else {
        return Ok(None);
    };
    match boxed_in(alloc, rest, levels)? {
        Some((b, rest)) => Ok(Some(((a, b), rest))),
        None => Ok(None),
    }
}

#[tactic(auto, using(crate::proofs::TestLemmas::both_is))]
fn both_of(pair: (Boxed<Test>, Boxed<Test>)) -> Test
    ensures { as_both pair ≡ result }
{
    let (a, b) = pair;
    Test::And(a, b)
}

#[tactic(auto, using(crate::proofs::TestLemmas::either_is))]
fn either_of(pair: (Boxed<Test>, Boxed<Test>)) -> Test
    ensures { as_either pair ≡ result }
{
    let (a, b) = pair;
    Test::Or(a, b)
}

#[tactic(auto, using(crate::proofs::TestLemmas::turned_is))]
fn turned_of(a: Boxed<Test>) -> Test
    ensures { as_turned a ≡ result }
{
    Test::Not(a)
}

#[cycle(reading)]
fn and_in(alloc: Global, bytes: &[u8], levels: usize) -> Result<Option<(Test, &[u8])>, NoMemory>
    ensures { IfOk result (λ found. MatchOption found
        ((mapped as_both in_both (both (test_codec levels) (test_codec levels))).read bytes.now
        ≡ None)
        (λ next. (mapped as_both in_both (both (test_codec levels) (test_codec levels))).read
        bytes.now
        ≡ Some (next.0, next.1.now))) }
{
    match two_in(alloc, bytes, levels)? {
        Some((pair, rest)) => Ok(Some((both_of(pair), rest))),
        None => Ok(None),
    }
}

#[cycle(reading)]
fn or_in(alloc: Global, bytes: &[u8], levels: usize) -> Result<Option<(Test, &[u8])>, NoMemory>
    ensures { IfOk result (λ found. MatchOption found
        ((mapped as_either in_either (both (test_codec levels) (test_codec levels))).read bytes.now
        ≡ None)
        (λ next. (mapped as_either in_either (both (test_codec levels) (test_codec levels))).read
        bytes.now
        ≡ Some (next.0, next.1.now))) }
{
    match two_in(alloc, bytes, levels)? {
        Some((pair, rest)) => Ok(Some((either_of(pair), rest))),
        None => Ok(None),
    }
}

#[cycle(reading)]
fn not_in(alloc: Global, bytes: &[u8], levels: usize) -> Result<Option<(Test, &[u8])>, NoMemory>
    ensures { IfOk result (λ found. MatchOption found
        ((mapped as_turned in_turned (test_codec levels)).read bytes.now ≡ None)
        (λ next. (mapped as_turned in_turned (test_codec levels)).read bytes.now
        ≡ Some (next.0, next.1.now))) }
{
    match boxed_in(alloc, bytes, levels)? {
        Some((a, rest)) => Ok(Some((turned_of(a), rest))),
        None => Ok(None),
    }
}

#[cycle(reading)]
fn some_test_in(alloc: Global, bytes: &[u8], less: usize) -> Result<Option<(Test, &[u8])>, NoMemory>
    ensures { IfOk result (λ found. MatchOption found
        ((test_codec (suc less)).read bytes.now ≡ None)
        (λ next. (test_codec (suc less)).read bytes.now ≡ Some (next.0, next.1.now))) }
{
    match bytes {
        [0, rest @ ..] => match <(Op, (Operand, Operand))>::read(alloc, rest)? {
            Some(((op, (x, y)), rest)) => Ok(Some((Test::Compare { op, x, y }, rest))),
            None => Ok(None),
        },
        [1, rest @ ..] => match Operand::read(alloc, rest)? {
            Some((x, rest)) => Ok(Some((Test::IsNull(x), rest))),
            None => Ok(None),
        },
        [2, rest @ ..] => match Operand::read(alloc, rest)? {
            Some((x, rest)) => Ok(Some((Test::NotNull(x), rest))),
            None => Ok(None),
        },
        [3, rest @ ..] => match and_in(alloc, rest, less)? {
            Some((test, rest)) => Ok(Some((test, rest))),
            None => Ok(None),
        },
        [4, rest @ ..] => match or_in(alloc, rest, less)? {
            Some((test, rest)) => Ok(Some((test, rest))),
            None => Ok(None),
        },
        [5, rest @ ..] => match not_in(alloc, rest, less)? {
            Some((test, rest)) => Ok(Some((test, rest))),
            None => Ok(None),
        },
        _ => Ok(None),
    }
}

// Appends the bytes of a test in which fewer than so many stand in one another.
#[cycle(writing)]
#[tactic(auto, using(crate::proofs::TestLemmas::level_written, crate::proofs::TestLemmas::none_written, crate::proofs::TestLemmas::level_fits, crate::proofs::TestLemmas::none_fits))]
fn append_test(test: &Test, levels: usize, to: &mut Vec<u8>) -> Result<(), NoMemory>
    ensures bytes { OnOk result
        (to.new.items ≡ to.old.items ++ (test_codec levels).write test.now) }
    ensures fits { OnOk result
        (OnTrue (is_below_level levels test.now) ((test_codec levels).ok test.now ≡ true)) }
{
    if levels == 0 {
        return Ok(());
    }
    append_some_test(test, levels - 1, to)?;
    Ok(())
}

// Appends a place and a test.
#[cycle(writing)]
fn append_one(place: u8, a: &Test, levels: usize, to: &mut Vec<u8>) -> Result<(), NoMemory>
    ensures bytes { OnOk result
        (to.new.items ≡ to.old.items ++ place ∷ (test_codec levels).write a.now) }
    ensures fits { OnOk result
        (OnTrue (is_below_level levels a.now) ((test_codec levels).ok a.now ≡ true)) }
{
    to.push(place)?;
    append_test(a, levels, to)?;
    Ok(())
}

// Appends a place and two tests.
#[cycle(writing)]
#[tactic(auto, using(crate::proofs::Each::pair_fits))]
fn append_two(
    place: u8,
    a: &Test,
    b: &Test,
    levels: usize,
    to: &mut Vec<u8>,
) -> Result<(), NoMemory>
    ensures bytes { OnOk result (to.new.items ≡ to.old.items
        ++ place ∷ ((test_codec levels).write a.now ++ (test_codec levels).write b.now)) }
    ensures fits { OnOk result
        (OnTrue (is_below_level levels a.now && is_below_level levels b.now)
        ((test_codec levels).ok a.now && (test_codec levels).ok b.now ≡ true)) }
{
    append_one(place, a, levels, to)?;
    append_test(b, levels, to)?;
    Ok(())
}

fn append_compared(op: &Op, x: &Operand, y: &Operand, to: &mut Vec<u8>) -> Result<(), NoMemory>
    ensures bytes { OnOk result
        (to.new.items ≡ to.old.items ++ 0 ∷ compared.write (op.now, (x.now, y.now))) }
    ensures fits { OnOk result (compared.ok (op.now, (x.now, y.now)) ≡ true) }
{
    append_two_at(0, op, x, to)?;
    y.write(to)?;
    Ok(())
}

#[cycle(writing)]
#[tactic(auto, using(crate::proofs::TestLemmas::and_written, crate::proofs::TestLemmas::or_written, crate::proofs::TestLemmas::not_written, crate::proofs::TestLemmas::and_fits, crate::proofs::TestLemmas::or_fits, crate::proofs::TestLemmas::not_fits))]
fn append_some_test(test: &Test, less: usize, to: &mut Vec<u8>) -> Result<(), NoMemory>
    ensures bytes { OnOk result
        (to.new.items ≡ to.old.items ++ (test_codec (suc less)).write test.now) }
    ensures fits { OnOk result (OnTrue (is_below_level (suc less) test.now)
        ((test_codec (suc less)).ok test.now ≡ true)) }
{
    match test {
        Test::Compare { op, x, y } => append_compared(op, x, y, to),
        Test::IsNull(x) => append_at(1, x, to),
        Test::NotNull(x) => append_at(2, x, to),
        Test::And(a, b) => {
            append_two(3, a.get(), b.get(), less, to)?;
            Ok(())
        }
        Test::Or(a, b) => {
            append_two(4, a.get(), b.get(), less, to)?;
            Ok(())
        }
        Test::Not(a) => {
            append_one(5, a.get(), less, to)?;
            Ok(())
        }
    }
}

/// At most 64 levels, as in a test that can be written in SQL.
impl Coded for Test {
    ghost use Rattle.lq_codec.specs.State.{is_below_level};
    ghost use Rattle.lq_codec.specs.Queries.{whole_test};

    ghost codec = { whole_test };

    ghost within = { is_below_level 65 };

    #[tactic(auto, using(crate::proofs::TestLemmas::whole_read))]
    fn read(alloc: Global, bytes: &[u8]) -> Result<Option<(Test, &[u8])>, NoMemory> {
        match test_in(alloc, bytes, 65)? {
            Some((test, rest)) => Ok(Some((test, rest))),
            None => Ok(None),
        }
    }

    #[tactic(auto, using(crate::proofs::TestLemmas::whole_written, crate::proofs::TestLemmas::whole_fits))]
    fn write(&self, to: &mut Vec<u8>) -> Result<(), NoMemory> {
        append_test(self, 65, to)?;
        Ok(())
    }
}
