// The flush plan of a case's card, whatever its views, over memory that is just large enough and full of junk.
use crate::case::{Case, pack_bits};
use crate::questions::print_order;
use anyhow::anyhow;
use image::{Image, open};
use marks::WordMarks;
use plan::flush_plan;
use support::{Desk, Question};

pub fn answer_plan(rt: &HostRuntime, case: &Case, bits: &str) -> anyhow::Result<()> {
    let heap = rt.alloc();
    let bytes = case.pack(heap)?;
    let changed = pack_bits(heap, bits)?;
    let mut image = Image::new();
    open(&mut image, bytes.as_slice()).map_err(|_| anyhow!(
        "the case does not pack into an image"
    ))?;
    let mut desk = Desk::new(heap, &image, Question::Order)?;
    let mut words = vec![in heap; u64::MAX; (case.nodes / 64) as usize + 1]?;
    let mut marks = WordMarks::new(words.as_mut_slice(), case.nodes);
    let stack = desk.stack.as_mut_slice();
    let table = desk.table.as_mut_slice();
    let res = desk.res.as_mut_slice();
    match flush_plan(
        bytes.as_slice(),
        changed.as_slice(),
        stack,
        table,
        &mut marks,
        res,
    ) {
        Ok(Ok(count)) => print_order(rt, res, count)?,
        Ok(Err(cycle)) => {
            let a = cycle.node_id();
            print!(rt; " cycle {a}")?
        }
        Err(fault) => {
            let number = fault.number();
            print!(rt; " refused {number}")?
        }
    }
    Ok(())
}
