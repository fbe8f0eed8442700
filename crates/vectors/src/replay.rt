// All cases, and what came of them.
use crate::answer::answer;
use crate::case::{Case, CaseError, GROUPS, Group};
use std::alloc::{AllocError, Global};
use std::collections::BTreeMap;
use std::fmt::Write;

/// How many cases there were, and how many were not answered as expected.
#[derive(Clone, Copy, Default)]
struct Tally {
    cases: usize,
    failed: usize,
}

impl Tally {
    fn add(&mut self, is_expected: bool) {
        self.cases = self.cases.saturating_add(1);
        if !is_expected {
            self.failed = self.failed.saturating_add(1);
        }
    }

    fn push_line(&self, text: &mut String, name: &str) -> Result<(), AllocError> {
        let cases = self.cases;
        let failed = self.failed;
        if failed == 0 {
            write!(text, "{name}: {cases} cases, all as expected\n")
        } else {
            write!(text, "{name}: {cases} cases, {failed} not as expected\n")
        }
    }
}

/// The tallies of the groups, and the lines of what was not as expected.
#[derive(Drop)]
struct Report {
    groups: BTreeMap<Group, Tally>,
    all: Tally,
    failures: String,
}

impl Report {
    fn new(heap: Global) -> Report {
        Report {
            groups: BTreeMap::new(heap),
            all: Tally::default(),
            failures: String::new(heap),
        }
    }

    fn add(&mut self, group: Group, is_expected: bool) -> Result<(), AllocError> {
        self.groups.entry(group)?.or_default().add(is_expected);
        self.all.add(is_expected);
        Ok(())
    }

    /// Replays a case.
    // Not inlined: what answers a case takes much stack, and a line that is no case needs none of it.
    #[inline(never)]
    fn replay_case(&mut self, heap: Global, case: &Case<'_>) -> Result<(), AllocError> {
        let got = answer(heap, case.group, case.bytes.as_slice())?;
        let is_expected = got.as_str() == case.expected;
        self.add(case.group, is_expected)?;
        if !is_expected {
            let group = case.group;
            let digits = case.digits;
            let expected = case.expected;
            return write!(
                self.failures,
                "{group} {digits}: expected {expected}, got {got}\n"
            );
        }
        Ok(())
    }

    /// Replays a line.
    fn replay_line(&mut self, heap: Global, line: &str) -> Result<(), AllocError> {
        if line.is_empty() || line.starts_with('#') {
            return Ok(());
        }
        match Case::parse(heap, line) {
            Ok(case) => self.replay_case(heap, &case),
            Err(CaseError::Memory(error)) => Err(error),
            Err(CaseError::Form) => {
                self.all.add(false);
                write!(self.failures, "no case: {line}\n")
            }
        }
    }

    /// What came of all cases.
    fn text(&self) -> Result<String, AllocError> {
        let mut text = self.failures.clone()?;
        for group in GROUPS {
            let tally = self.groups.get(&group).copied().unwrap_or_default();
            tally.push_line(&mut text, group.name())?;
        }
        self.all.push_line(&mut text, "vectors")?;
        Ok(text)
    }
}

/// Replays cases, one a line.
pub(crate) fn replay(heap: Global, cases: &str) -> Result<String, AllocError> {
    let mut report = Report::new(heap);
    for line in cases.lines() {
        report.replay_line(heap, line)?;
    }
    report.text()
}
