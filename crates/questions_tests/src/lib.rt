// The write order, paths, bridges and cut nodes in a workspace, and every refusal of these questions, on examples.
#![tactic(auto)]

#[cfg(test)]
mod setting;

#[cfg(test)]
mod tests {
    use crate::setting::{Due, answers, card, grants, refuses};
    use filter::Bits;
    use image::Image;
    use law::Reply;
    use marks::WordMarks;
    use model::Kind::{self, OneWay, TwoWay};
    use samples::Sparse;
    use std::alloc::Global;
    use std::process::Abort;
    use std::test::*;
    use support::{Desk, JUNK, Question, pack};
    use views::{EdgeFiltered, NodeFiltered, Reversed};
    use workspace::Refusal::{self, MarksShort, OtherGraph, StackShort, TableShort, WalkOpen};
    use workspace::{Workspace, entries};

    const CHAIN: &[(u32, u32)] = &[(0, 1), (1, 2)];

    const BACK: &[(u32, u32)] = &[(0, 1), (1, 2), (2, 1)];

    const FAN: &[(u32, u32)] = &[(0, 1), (0, 2), (0, 3), (3, 1)];

    const TWINS: &[(u32, u32)] = &[(0, 1), (0, 1)];

    const TRIANGLE: &[(u32, u32)] = &[(0, 1), (1, 2), (2, 0)];

    // A graph and what is asked of it.
    struct Example(Kind, u32, &'static [(u32, u32)], Due<'static>);

    static EXAMPLES: &[Example] = &[
        Example(OneWay, 0, &[], (Question::Order, Reply::Ordered(0), &[])),
        Example(
            OneWay,
            2,
            &[],
            (Question::Order, Reply::Ordered(2), &[1, 0]),
        ),
        Example(
            OneWay,
            3,
            CHAIN,
            (Question::Order, Reply::Ordered(3), &[0, 1, 2]),
        ),
        Example(
            OneWay,
            4,
            FAN,
            (Question::Order, Reply::Ordered(4), &[0, 2, 3, 1]),
        ),
        Example(
            OneWay,
            2,
            &[(0, 1), (1, 0)],
            (Question::Order, Reply::Cycle(1), &[]),
        ),
        Example(
            OneWay,
            1,
            &[(0, 0)],
            (Question::Order, Reply::Cycle(0), &[]),
        ),
        Example(OneWay, 3, BACK, (Question::Order, Reply::Cycle(2), &[])),
        Example(
            TwoWay,
            2,
            &[(0, 1)],
            (Question::Order, Reply::Cycle(1), &[]),
        ),
        Example(
            OneWay,
            3,
            CHAIN,
            (Question::Path(0, 2), Reply::Path(true), &[]),
        ),
        Example(
            OneWay,
            3,
            CHAIN,
            (Question::Path(2, 0), Reply::Path(false), &[]),
        ),
        Example(
            OneWay,
            3,
            CHAIN,
            (Question::Path(1, 1), Reply::Path(true), &[]),
        ),
        Example(
            TwoWay,
            3,
            CHAIN,
            (Question::Path(2, 0), Reply::Path(true), &[]),
        ),
        Example(TwoWay, 0, &[], (Question::Bridges, Reply::Listed(0), &[])),
        Example(
            TwoWay,
            3,
            CHAIN,
            (Question::Bridges, Reply::Listed(2), &[0, 1]),
        ),
        Example(
            TwoWay,
            3,
            CHAIN,
            (Question::CutNodes, Reply::Listed(1), &[1]),
        ),
        Example(TwoWay, 2, TWINS, (Question::Bridges, Reply::Listed(0), &[])),
        Example(
            TwoWay,
            2,
            TWINS,
            (Question::CutNodes, Reply::Listed(0), &[]),
        ),
        Example(
            TwoWay,
            3,
            TRIANGLE,
            (Question::Bridges, Reply::Listed(0), &[]),
        ),
        Example(
            TwoWay,
            3,
            TRIANGLE,
            (Question::CutNodes, Reply::Listed(0), &[]),
        ),
        Example(
            TwoWay,
            2,
            &[(0, 0), (1, 0)],
            (Question::Bridges, Reply::Listed(1), &[1]),
        ),
    ];

    #[test]
    fn examples(rt: HostRuntime) -> Result<(), Fail> {
        for Example(kind, nodes, edges, due) in EXAMPLES {
            let bytes = pack(rt.alloc(), *kind, *nodes, edges)?;
            let graph = card(bytes.as_slice())?;
            answers(&rt, rt.alloc(), &graph, &[*due])?;
        }
        Ok(())
    }

    #[test]
    fn one_view(rt: HostRuntime) -> Result<(), Fail> {
        let heap = rt.alloc();
        let bytes = pack(heap, OneWay, 3, CHAIN)?;
        let reversed = Reversed(card(bytes.as_slice())?);
        answers(
            &rt,
            heap,
            &reversed,
            &[(Question::Order, Reply::Ordered(3), &[2, 1, 0])],
        )?;
        let bytes = pack(heap, OneWay, 3, BACK)?;
        let without_2 = EdgeFiltered(card(bytes.as_slice())?, 0..2);
        answers(
            &rt,
            heap,
            &without_2,
            &[(Question::Order, Reply::Ordered(3), &[0, 1, 2])],
        )
    }

    #[test]
    fn one_way_pile(rt: HostRuntime) -> Result<(), Fail> {
        let edges = [(0, 1), (1, 2), (2, 0), (2, 3), (3, 4), (4, 5), (4, 1)];
        let bytes = pack(rt.alloc(), OneWay, 6, &edges)?;
        let five = NodeFiltered(card(bytes.as_slice())?, 0..5);
        let turned = Reversed(Reversed(&five));
        // Without edges 2 and 6, and without edge 2.
        let pile = Reversed(EdgeFiltered(turned, Bits(&[0b0011_1011])));
        let dues: &[Due] = &[
            (Question::Order, Reply::Ordered(5), &[4, 3, 2, 1, 0]),
            (Question::Path(4, 0), Reply::Path(true), &[]),
            (Question::Path(0, 4), Reply::Path(false), &[]),
        ];
        answers(&rt, rt.alloc(), &pile, dues)?;
        let pile = Reversed(EdgeFiltered(turned, Bits(&[0b0111_1011])));
        answers(
            &rt,
            rt.alloc(),
            &pile,
            &[(Question::Order, Reply::Cycle(2), &[])],
        )
    }

    #[test]
    fn two_way_pile(rt: HostRuntime) -> Result<(), Fail> {
        let edges = [(0, 1), (1, 2), (2, 0), (2, 3), (2, 3), (3, 4), (4, 5)];
        let bytes = pack(rt.alloc(), TwoWay, 6, &edges)?;
        let five = NodeFiltered(card(bytes.as_slice())?, 0..5);
        let twins = Reversed(Reversed(Reversed(&five)));
        answers(
            &rt,
            rt.alloc(),
            &twins,
            &[(Question::Bridges, Reply::Listed(1), &[5])],
        )?;
        // Without one of the twins.
        let pile = EdgeFiltered(twins, Bits(&[0b0110_1111]));
        let dues: &[Due] = &[
            (Question::Bridges, Reply::Listed(2), &[3, 5]),
            (Question::CutNodes, Reply::Listed(2), &[2, 3]),
            (Question::Path(4, 0), Reply::Path(true), &[]),
            (Question::Order, Reply::Cycle(2), &[]),
        ];
        answers(&rt, rt.alloc(), &pile, dues)
    }

    #[test]
    fn with_gaps(rt: HostRuntime) -> Result<(), Fail> {
        let dues: &[Due] = &[
            (Question::Order, Reply::Ordered(2), &[0, 2]),
            (Question::Path(0, 2), Reply::Path(true), &[]),
            (Question::Path(2, 0), Reply::Path(false), &[]),
        ];
        answers(&rt, rt.alloc(), &Sparse, dues)?;
        let reversed = Reversed(Sparse);
        answers(
            &rt,
            rt.alloc(),
            &reversed,
            &[(Question::Order, Reply::Ordered(2), &[2, 0])],
        )
    }

    // Every node marked, up to a capacity.
    fn all_marked(words: &mut [u64], capacity: u32) -> WordMarks<'_> {
        words.fill(u64::MAX);
        WordMarks::new(words, capacity)
    }

    // A record for the graph, no walk open, and the same with one.
    fn records(heap: Global, graph: &Image) -> Result<(Workspace, Workspace), Fail> {
        let mut words: [u64; 1] = [0];
        let mut marks = WordMarks::new(&mut words, 64);
        let mut desk = Desk::new(heap, graph, Question::Order)?;
        desk.empty(graph, &mut marks)?;
        let closed = desk.work;
        let stack = desk.stack.as_mut_slice();
        let table = desk.table.as_slice();
        desk.work.move_to(graph, stack, table, &marks, 0)?;
        Ok((closed, desk.work))
    }

    // All tests fail at first, and one after the other is mended: each time the first that is left is the refusal.
    // The graph has three nodes, and the last refusal is the question's own.
    fn check_ladder(
        rt: &impl Abort,
        heap: Global,
        graph: &Image,
        question: Question,
        last: Refusal,
    ) -> Result<(), Fail> {
        let (closed, open) = records(heap, graph)?;
        let mut words: [u64; 1] = [0];
        let mut few = all_marked(&mut words, 2);
        let mut desk = Desk::new(heap, graph, question)?;
        desk.stack.pop();
        desk.table.pop();
        desk.res.pop();
        refuses(rt, heap, &mut desk, graph, &mut few, question, OtherGraph)?;
        desk.work = open;
        refuses(rt, heap, &mut desk, graph, &mut few, question, StackShort)?;
        desk.stack.push(JUNK)?;
        refuses(rt, heap, &mut desk, graph, &mut few, question, TableShort)?;
        desk.table.push(JUNK)?;
        refuses(rt, heap, &mut desk, graph, &mut few, question, MarksShort)?;
        let mut marks = all_marked(&mut words, 3);
        refuses(rt, heap, &mut desk, graph, &mut marks, question, WalkOpen)?;
        desk.work = closed;
        refuses(rt, heap, &mut desk, graph, &mut marks, question, last)
    }

    #[test]
    fn refusals_one_way(rt: HostRuntime) -> Result<(), Fail> {
        let bytes = pack(rt.alloc(), OneWay, 3, CHAIN)?;
        let chain = card(bytes.as_slice())?;
        assert_eq!(rt; bytes.len(), 96);
        assert_eq!(rt; entries(&chain), (8, 12));
        for (question, last) in [
            (Question::Order, Refusal::ResultShort),
            (Question::Path(3, 0), Refusal::AbsentNode),
            (Question::Path(0, 3), Refusal::AbsentNode),
            (Question::Path(u32::MAX, 9), Refusal::AbsentNode),
            (Question::Bridges, Refusal::OneWay),
            (Question::CutNodes, Refusal::OneWay),
        ] {
            check_ladder(&rt, rt.alloc(), &chain, question, last)?;
        }
        Ok(())
    }

    #[test]
    fn refusals_two_way(rt: HostRuntime) -> Result<(), Fail> {
        let bytes = pack(rt.alloc(), TwoWay, 3, CHAIN)?;
        let chain = card(bytes.as_slice())?;
        for (question, last) in [
            (Question::Order, Refusal::ResultShort),
            (Question::Path(0, 3), Refusal::AbsentNode),
            (Question::Bridges, Refusal::ResultShort),
            (Question::CutNodes, Refusal::ResultShort),
        ] {
            check_ladder(&rt, rt.alloc(), &chain, question, last)?;
        }
        Ok(())
    }

    // A walk that has ended is open, until `reset`.
    #[test]
    fn at_an_end(rt: HostRuntime) -> Result<(), Fail> {
        let bytes = pack(rt.alloc(), TwoWay, 3, CHAIN)?;
        let chain = card(bytes.as_slice())?;
        let mut words: [u64; 1] = [0];
        let mut marks = WordMarks::new(&mut words, 3);
        let mut desk = Desk::new(rt.alloc(), &chain, Question::CutNodes)?;
        desk.empty(&chain, &mut marks)?;
        let stack = desk.stack.as_mut_slice();
        desk.work
            .move_to(&chain, stack, desk.table.as_slice(), &marks, 0)?;
        for shown in [Some(0), Some(1), Some(2), None] {
            let table = desk.table.as_slice();
            let next = desk
                .work
                .next(&chain, desk.stack.as_mut_slice(), table, &mut marks);
            assert_eq!(rt; next, Ok(shown));
        }
        for question in [
            Question::Order,
            Question::Path(0, 0),
            Question::Bridges,
            Question::CutNodes,
        ] {
            refuses(
                &rt,
                rt.alloc(),
                &mut desk,
                &chain,
                &mut marks,
                question,
                Refusal::WalkOpen,
            )?;
        }
        desk.work.reset(
            &chain,
            desk.stack.as_slice(),
            desk.table.as_slice(),
            &mut marks,
        )?;
        grants(
            &rt,
            &mut desk,
            &chain,
            &mut marks,
            (Question::CutNodes, Reply::Listed(1), &[1]),
        );
        Ok(())
    }

    // A new record fits a graph without nodes as it is.
    #[test]
    fn no_nodes(rt: HostRuntime) -> Result<(), Fail> {
        let one = Image::new();
        let mut words: [u64; 1] = [0];
        let mut marks = WordMarks::new(&mut words, 64);
        let mut desk = Desk::new(rt.alloc(), &one, Question::Order)?;
        assert_eq!(rt; desk.stack.len(), 1);
        refuses(
            &rt,
            rt.alloc(),
            &mut desk,
            &one,
            &mut marks,
            Question::Path(0, 0),
            Refusal::AbsentNode,
        )?;
        refuses(
            &rt,
            rt.alloc(),
            &mut desk,
            &one,
            &mut marks,
            Question::Bridges,
            Refusal::OneWay,
        )?;
        grants(
            &rt,
            &mut desk,
            &one,
            &mut marks,
            (Question::Order, Reply::Ordered(0), &[]),
        );
        let bytes = pack(rt.alloc(), TwoWay, 0, &[])?;
        let two = card(bytes.as_slice())?;
        for question in [Question::Bridges, Question::CutNodes] {
            let mut desk = Desk::new(rt.alloc(), &two, question)?;
            grants(
                &rt,
                &mut desk,
                &two,
                &mut marks,
                (question, Reply::Listed(0), &[]),
            );
        }
        Ok(())
    }
}
