ghost use Rattle.std.specs.Prelude.{◌≡◌, ◌≤◌, IfOk, length, take};

use crate::meets::rows::OWN;
use sp_affine::Form;
use sp_deps::{Access, Dist, Footprint, LoopRange, is_footprint};
use sp_meets::least_distance;
use std::alloc::{AllocError, Global};
use std::process::Abort;
use std::test::Fail;

// The numbers of a row, one after the other; none stands where there is a `-`.
#[derive(Drop)]
struct Row {
    numbers: Vec<Option<i64>>,
    at: usize,
}

impl Row {
    fn new(alloc: Global, line: &str) -> Result<Row, AllocError> {
        let mut numbers = Vec::new(alloc);
        for field in line.split(' ') {
            numbers.push(field.parse().ok())?;
        }
        Ok(Row { numbers, at: 0 })
    }

    fn next(&mut self, rt: &impl Abort) -> Option<i64> {
        let number = *self.numbers.get(self.at).expect(rt, "a field");
        self.at += 1;
        number
    }

    fn number(&mut self, rt: &impl Abort) -> i64 {
        self.next(rt).expect(rt, "a number")
    }

    fn count(&mut self, rt: &impl Abort) -> u32 {
        let number = self.number(rt);
        assert!(rt; (0..100).contains(&number));
        number as u32
    }

    fn counter(&mut self, rt: &impl Abort) -> LoopRange {
        let least = self.next(rt);
        let greatest = self.next(rt);
        let by = self.count(rt);
        let par = self.count(rt);
        LoopRange {
            from: least.zip(greatest),
            by,
            par,
        }
    }

    fn counters(&mut self, rt: &impl Abort, alloc: Global) -> Result<Vec<LoopRange>, AllocError> {
        let count = self.count(rt);
        let mut made = Vec::new(alloc);
        for _ in 0..count {
            made.push(self.counter(rt))?;
        }
        Ok(made)
    }

    fn symbol(&mut self, rt: &impl Abort) -> Option<u32> {
        match self.next(rt) {
            Some(number) => u32::try_from(number).ok(),
            None => None,
        }
    }

    fn form(
        &mut self,
        rt: &impl Abort,
        alloc: Global,
        counters: usize,
    ) -> Result<Form, AllocError> {
        let symbol = self.symbol(rt);
        let constant = self.number(rt);
        let mut coefs = Vec::new(alloc);
        for _ in 0..counters {
            coefs.push(self.number(rt))?;
        }
        Ok(Form {
            coefs,
            constant,
            symbol,
        })
    }

    fn forms(
        &mut self,
        rt: &impl Abort,
        alloc: Global,
        counters: usize,
    ) -> Result<Option<Vec<Form>>, AllocError> {
        let Some(rank) = self.next(rt) else {
            return Ok(None);
        };
        let mut made = Vec::new(alloc);
        for _ in 0..rank {
            made.push(self.form(rt, alloc, counters)?)?;
        }
        Ok(Some(made))
    }

    fn access(
        &mut self,
        rt: &impl Abort,
        alloc: Global,
        counters: usize,
    ) -> Result<Access, AllocError> {
        let mem = self.count(rt);
        let writes = self.count(rt) == 1;
        let forms = self.forms(rt, alloc, counters)?;
        Ok(Access { mem, writes, forms })
    }
}

fn sum(rt: &impl Abort, a: usize, b: usize) -> usize {
    a.checked_add(b).expect(rt, "a sum")
}

// A part of a body with one access.
fn part(
    alloc: Global,
    access: Access,
    common: &[LoopRange],
    own: &[LoopRange],
) -> Result<Footprint, AllocError>
    requires { length common.now ≤ 100 }
    ensures { IfOk result (λ part. take part.common part.loops.items ≡ common.now) }
{
    let mut loops = common.to_vec(alloc)?;
    loops.extend_from_slice(own)?;
    let mut accesses = Vec::new(alloc);
    accesses.push(access)?;
    Ok(Footprint {
        accesses,
        common: common.len() as u32,
        loops,
    })
}

#[test]
fn distances_of_worked_rows(rt: HostRuntime) -> Result<(), Fail> {
    for line in OWN.lines() {
        let mut row = Row::new(rt.alloc(), line)?;
        let outside = row.count(&rt) as usize;
        let common = row.counters(&rt, rt.alloc())?;
        let first = row.counters(&rt, rt.alloc())?;
        let second = row.counters(&rt, rt.alloc())?;
        let around = sum(&rt, outside, common.len());
        let a = row.access(&rt, rt.alloc(), sum(&rt, around, first.len()))?;
        let b = row.access(&rt, rt.alloc(), sum(&rt, around, second.len()))?;
        let want = match row.next(&rt) {
            Some(groups) => Dist::AtLeast(u64::try_from(groups).ok().expect(&rt, "a distance")),
            None => Dist::Never,
        };
        assert!(rt; common.len() <= 100);
        let a = part(rt.alloc(), a, &common, &first)?;
        let b = part(rt.alloc(), b, &common, &second)?;
        assert!(rt; is_footprint(&a));
        assert!(rt; is_footprint(&b));
        assert_eq!(rt; least_distance(&a, &b), Some(want), "{line}");
    }
    Ok(())
}
