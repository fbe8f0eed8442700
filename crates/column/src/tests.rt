// What an entry list delivers, on examples.
use crate::entries::EntryList;
use crate::entry::Entry;
use crate::fault::SourceFault;
use crate::source::BatchSource;
use plan::Plan;
use std::process::Abort;
use std::test::Fail;
use value::{Run, Value};

// OPTIONAL INT64 `a`, REQUIRED BYTE_ARRAY `b`, REPEATED INT96 `c`.
static IMAGE: [u8; 33] = [
    1, 116, 3, 1, 97, 1, 0, 0, 2, 0, 0, 0, 0, 1, 98, 0, 0, 0, 6, 0, 0, 0, 0, 1, 99, 2, 0, 0, 3, 0,
    0, 0, 0,
];

const SEVEN: Entry = Entry {
    column: 0,
    repetition: 0,
    definition: 1,
    value: Some(Value::Word(7)),
};

const ABSENT: Entry = Entry {
    column: 0,
    repetition: 0,
    definition: 0,
    value: None,
};

const TEXT: Entry = Entry {
    column: 1,
    repetition: 0,
    definition: 0,
    value: Some(Value::Run(Run {
        place: 1,
        length: 2,
    })),
};

// Three of column `a` with one of another between them.
static MIXED: [Entry; 4] = [ABSENT, SEVEN, TEXT, SEVEN];

fn entry(column: usize, definition: u8, value: Option<Value>) -> Entry {
    Entry {
        column,
        repetition: 0,
        definition,
        value,
    }
}

fn run(place: u64, length: u32) -> Option<Value> {
    Some(Value::Run(Run { place, length }))
}

// Up to k words of a column: how many levels and values, and the first definition and word.
fn words(
    list: &mut EntryList<'_>,
    column: usize,
    k: usize,
) -> Result<(usize, usize, u8, u64), SourceFault> {
    let (mut r, mut d, mut v) = ([9; 16], [9; 16], [9; 16]);
    let (levels, values) = list.deliver::<u64>(column, k, &mut r, &mut d, &mut v)?;
    Ok((levels, values, d[0], v[0]))
}

// The next of column `a`, or of another, is a fault with this number and place.
fn faults(
    rt: &impl Abort,
    list: &mut EntryList<'_>,
    column: usize,
    k: usize,
    number: u8,
    place: u64,
) -> Result<(), Fail> {
    let Err(fault) = words(list, column, k) else {
        return Err(Fail::new("no fault"));
    };
    assert_eq!(rt; fault.kind.number(), number);
    assert_eq!(rt; fault.place, place);
    Ok(())
}

// Over `hey`, the second of two entries ends column `a` with a fault at 1, each time.
fn ends_by(rt: &impl Abort, plan: &Plan, second: Entry, number: u8) -> Result<(), Fail> {
    let entries = [SEVEN, second];
    let mut list = EntryList::new(plan, &entries, b"hey");
    assert!(rt; words(&mut list, 0, 1) == Ok((1, 1, 1, 7)));
    faults(rt, &mut list, 0, 1, number, 1)?;
    faults(rt, &mut list, 0, 1, number, 1)
}

#[test]
fn each_fault_is_met_at_its_entry(rt: HostRuntime) -> Result<(), Fail> {
    let mut plan = Plan::new();
    assert!(rt; plan.build(16, &IMAGE, b"").is_ok());
    ends_by(&rt, &plan, entry(3, 0, None), 4)?;
    ends_by(&rt, &plan, entry(0, 1, None), 5)?;
    ends_by(&rt, &plan, entry(0, 2, Some(Value::Word(7))), 5)?;
    ends_by(&rt, &plan, entry(1, 0, Some(Value::Word(7))), 5)?;
    ends_by(&rt, &plan, entry(1, 0, run(2, 2)), 6)?;
    ends_by(&rt, &plan, entry(1, 0, run(0, 1_048_577)), 6)
}

#[test]
fn sixteen_at_a_time(rt: HostRuntime) {
    let mut plan = Plan::new();
    assert!(rt; plan.build(16, &IMAGE, b"").is_ok());
    let mut list = EntryList::new(&plan, &MIXED, b"hey");
    assert!(rt; words(&mut list, 0, 16) == Ok((3, 2, 0, 7)));
    assert!(rt; words(&mut list, 0, 16) == Ok((0, 0, 9, 9)));
}

#[test]
fn one_at_a_time(rt: HostRuntime) {
    let mut plan = Plan::new();
    assert!(rt; plan.build(16, &IMAGE, b"").is_ok());
    let mut list = EntryList::new(&plan, &MIXED, b"hey");
    assert!(rt; words(&mut list, 0, 1) == Ok((1, 0, 0, 9)));
    assert!(rt; words(&mut list, 0, 1) == Ok((1, 1, 1, 7)));
    assert!(rt; words(&mut list, 0, 1) == Ok((1, 1, 1, 7)));
    assert!(rt; words(&mut list, 0, 1) == Ok((0, 0, 9, 9)));
}

#[test]
fn misuse_is_fault_7_and_changes_nothing(rt: HostRuntime) -> Result<(), Fail> {
    let mut plan = Plan::new();
    assert!(rt; plan.build(16, &IMAGE, b"").is_ok());
    let entries = [SEVEN];
    let mut list = EntryList::new(&plan, &entries, b"hey");
    faults(&rt, &mut list, 0, 0, 7, 0)?;
    faults(&rt, &mut list, 0, 17, 7, 0)?;
    faults(&rt, &mut list, 1, 1, 7, 0)?;
    faults(&rt, &mut list, 3, 1, 7, 0)?;
    assert!(rt; words(&mut list, 0, 16) == Ok((1, 1, 1, 7)));
    Ok(())
}

#[test]
fn a_part_of_a_run_is_copied(rt: HostRuntime) {
    let plan = Plan::new();
    let list = EntryList::new(&plan, &[], b"hey");
    let mut memory = [9; 3];
    assert!(rt;
        list.copy_run(
            Run {
                place: 1,
                length: 2,
            },
            &mut memory,
        )
        .is_ok()
    );
    assert!(rt; memory[0] == b'e' && memory[1] == b'y' && memory[2] == 9);
}
