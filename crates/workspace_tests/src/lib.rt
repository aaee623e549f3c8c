// Walks in a workspace, and every refusal of its calls, on examples.
#![tactic(auto)]

#[cfg(test)]
mod cards;
#[cfg(test)]
mod desk;

#[cfg(test)]
mod tests {
    use crate::cards::{BARE, CHAIN, FAN, LINE, PAIR};
    use crate::desk::Desk;
    use filter::Bits;
    use graph::Graph;
    use image::{Image, ImageFault, open};
    use law::{Answer, Call, Question, Reply, Said};
    use marks::{VisitMap, WordMarks};
    use runs::run;
    use samples::{FlagMarks, Sparse};
    use std::process::Abort;
    use std::test::*;
    use views::{EdgeFiltered, NodeFiltered, Reversed};
    use workspace::{Refusal, Workspace};

    // Each test makes its own marks, over words of its own: no function can return marks over words that it made.

    // A card of the tests, opened.
    fn card(bytes: &[u8]) -> Result<Image, ImageFault> {
        let mut image = Image::new();
        open(&mut image, bytes)?;
        Ok(image)
    }

    #[test]
    fn numbers(rt: HostRuntime) -> Result<(), Fail> {
        assert_eq!(rt; Refusal::StackShort.number(), 8);
        assert_eq!(rt; Refusal::TableShort.number(), 9);
        assert_eq!(rt; Refusal::MarksShort.number(), 10);
        assert_eq!(rt; Refusal::OtherGraph.number(), 11);
        assert_eq!(rt; Refusal::AbsentNode.number(), 12);
        assert_eq!(rt; Refusal::StrayEntry.number(), 13);
        assert_eq!(rt; Refusal::WalkOpen.number(), 14);
        assert_eq!(rt; Refusal::ResultShort.number(), 15);
        assert_eq!(rt; Refusal::OneWay.number(), 16);
        Ok(())
    }

    #[test]
    fn texts(rt: HostRuntime) -> Result<(), Fail> {
        let text = Refusal::AbsentNode.to_string(rt.alloc())?;
        assert_eq!(rt; text.as_str(), "refused 12");
        Ok(())
    }

    // Any list of calls on a new workspace, as far as there is room for answers.
    #[test]
    fn one_run(rt: HostRuntime) -> Result<(), Fail> {
        let chain = card(CHAIN)?;
        let calls = [
            Call::Next,
            Call::Empty,
            Call::Next,
            Call::MoveTo(0),
            Call::Next,
            Call::MoveTo(2),
            Call::Next,
            Call::Next,
            Call::MoveTo(3),
            Call::MoveTo(1),
            Call::Next,
            Call::Next,
            Call::Reset,
        ];
        let due = [
            Err(Refusal::OtherGraph),
            Ok(Said::Done),
            Ok(Said::End),
            Ok(Said::Done),
            Ok(Said::Shown(0)),
            Ok(Said::Done),
            Ok(Said::Shown(2)),
            Ok(Said::End),
            Err(Refusal::AbsentNode),
            Ok(Said::Done),
            Ok(Said::Shown(1)),
            Ok(Said::End),
        ];
        let mut answers: [Answer; 12] = [Ok(Said::End); 12];
        let mut stack: [u32; 8] = [9; 8];
        let mut table: [u32; 12] = [9; 12];
        let mut words: [u64; 1] = [u64::MAX];
        let mut marks = WordMarks::new(&mut words, 64);
        let mut none: [u32; 0] = [];
        let done = run(
            &chain,
            &mut stack,
            &mut table,
            &mut marks,
            &calls,
            &mut answers,
            &mut none,
        );
        assert_eq!(rt; done, 12);
        assert_eq!(rt; answers, due);
        assert_eq!(rt; table, [9; 12]);
        Ok(())
    }

    // Questions and a walk in one run, on a one-way graph, as far as there is result memory.
    #[test]
    fn questions_in_one_run(rt: HostRuntime) -> Result<(), Fail> {
        let chain = card(CHAIN)?;
        let calls = [
            Call::Ask(Question::Bridges(2)),
            Call::Empty,
            Call::Ask(Question::Toposort(2)),
            Call::Ask(Question::Toposort(4)),
            Call::Ask(Question::HasPathConnecting(0, 2)),
            Call::Ask(Question::HasPathConnecting(2, 0)),
            Call::Ask(Question::HasPathConnecting(0, 3)),
            Call::Ask(Question::Bridges(1)),
            Call::Ask(Question::ArticulationPoints(0)),
            Call::MoveTo(1),
            Call::Ask(Question::Toposort(0)),
            Call::Next,
            Call::Reset,
            Call::Next,
            Call::Ask(Question::HasPathConnecting(2, 2)),
            Call::Ask(Question::Toposort(3)),
        ];
        let due = [
            Err(Refusal::OtherGraph),
            Ok(Said::Done),
            Err(Refusal::ResultShort),
            Ok(Said::Told(Reply::Ordered(3))),
            Ok(Said::Told(Reply::Path(true))),
            Ok(Said::Told(Reply::Path(false))),
            Err(Refusal::AbsentNode),
            Err(Refusal::OneWay),
            Err(Refusal::OneWay),
            Ok(Said::Done),
            Err(Refusal::WalkOpen),
            Ok(Said::Shown(1)),
            Ok(Said::Done),
            Ok(Said::End),
            Ok(Said::Told(Reply::Path(true))),
        ];
        let mut answers: [Answer; 16] = [Ok(Said::End); 16];
        let mut results: [u32; 11] = [9; 11];
        let done = run_over_junk(&chain, &calls, &mut answers, &mut results);
        assert_eq!(rt; done, 15);
        for (answer, said) in answers.iter().zip(due) {
            assert_eq!(rt; *answer, said);
        }
        // Only the granted order is written, in the piece after those of the calls before it.
        assert_eq!(rt; results, [9, 9, 9, 9, 0, 1, 2, 9, 9, 9, 9]);
        Ok(())
    }

    // A run over memory with junk in it, which is larger than the graphs ask for.
    fn run_over_junk<G: Graph>(
        graph: &G,
        calls: &[Call],
        answers: &mut [Answer],
        results: &mut [u32],
    ) -> usize {
        let mut stack: [u32; 12] = [9; 12];
        let mut table: [u32; 12] = [9; 12];
        let mut words: [u64; 1] = [u64::MAX];
        let mut marks = WordMarks::new(&mut words, 64);
        run(
            graph, &mut stack, &mut table, &mut marks, calls, answers, results,
        )
    }

    // Bridges and cut nodes of a two-way graph, and a cycle of a one-way graph.
    #[test]
    fn lists_in_one_run(rt: HostRuntime) -> Result<(), Fail> {
        let calls = [
            Call::Empty,
            Call::Ask(Question::Bridges(1)),
            Call::Ask(Question::Bridges(2)),
            Call::Ask(Question::ArticulationPoints(3)),
        ];
        let due = [
            Ok(Said::Done),
            Err(Refusal::ResultShort),
            Ok(Said::Told(Reply::Listed(2))),
            Ok(Said::Told(Reply::Listed(1))),
        ];
        let mut answers: [Answer; 4] = [Ok(Said::End); 4];
        let mut results: [u32; 7] = [9; 7];
        let done = run_over_junk(&card(LINE)?, &calls, &mut answers, &mut results);
        assert_eq!(rt; done, 4);
        assert_eq!(rt; answers, due);
        assert_eq!(rt; results, [9, 0, 1, 1, 9, 9, 9]);

        let calls = [Call::Empty, Call::Ask(Question::Toposort(2))];
        let mut answers: [Answer; 2] = [Ok(Said::End); 2];
        let mut results: [u32; 2] = [9; 2];
        let done = run_over_junk(&card(PAIR)?, &calls, &mut answers, &mut results);
        assert_eq!(rt; done, 2);
        assert_eq!(rt; answers, [Ok(Said::Done), Ok(Said::Told(Reply::Cycle(1)))]);
        assert_eq!(rt; results, [9, 9]);
        Ok(())
    }

    #[test]
    fn last_of_a_row_first(rt: HostRuntime) -> Result<(), Fail> {
        let fan = card(FAN)?;
        let mut words: [u64; 1] = [u64::MAX];
        let mut marks = WordMarks::new(&mut words, 64);
        let mut desk = Desk::new();
        desk.empty(&fan, &mut marks)?;
        desk.move_to(&fan, &marks, 0)?;
        desk.shows(&rt, &fan, &mut marks, &[0, 3, 1, 2])?;
        desk.ends(&rt, &fan, &mut marks)?;
        // What was taken off the stack still stands in its memory.
        assert_eq!(rt; desk.stack[0], 1);
        assert_eq!(rt; desk.stack[1], 2);
        assert_eq!(rt; desk.stack[2], 1);
        assert_eq!(rt; desk.stack[3], 77);
        Ok(())
    }

    #[test]
    fn marks_outlive_moves(rt: HostRuntime) -> Result<(), Fail> {
        let chain = card(CHAIN)?;
        let mut words: [u64; 1] = [u64::MAX];
        let mut marks = WordMarks::new(&mut words, 64);
        let mut desk = Desk::new();
        desk.empty(&chain, &mut marks)?;
        desk.move_to(&chain, &marks, 0)?;
        desk.shows(&rt, &chain, &mut marks, &[0])?;
        desk.move_to(&chain, &marks, 2)?;
        desk.shows(&rt, &chain, &mut marks, &[2])?;
        desk.ends(&rt, &chain, &mut marks)?;
        desk.move_to(&chain, &marks, 1)?;
        desk.shows(&rt, &chain, &mut marks, &[1])?;
        desk.ends(&rt, &chain, &mut marks)
    }

    // Each call on the chain says this of such memory. The record was made with enough of all.
    fn check_sizes(
        rt: &impl Abort,
        stack: &mut [u32],
        table: &[u32],
        capacity: u32,
        said: Option<Refusal>,
    ) -> Result<(), Fail> {
        let chain = card(CHAIN)?;
        let mut words: [u64; 1] = [u64::MAX];
        let mut desk = Desk::new();
        desk.empty(&chain, &mut WordMarks::new(&mut words, 64))?;
        let mut work = desk.workspace;
        let mut words: [u64; 1] = [u64::MAX];
        let mut marks = WordMarks::new(&mut words, capacity);
        assert_eq!(rt; work.empty(&chain, stack, table, &mut marks).err(), said);
        assert_eq!(rt; work.reset(&chain, stack, table, &mut marks).err(), said);
        assert_eq!(rt; work.next(&chain, stack, table, &mut marks).err(), said);
        assert_eq!(rt; work.move_to(&chain, stack, table, &marks, 0).err(), said);
        if said.is_some() {
            assert_eq!(rt; work.move_to(&chain, stack, table, &marks, 9).err(), said);
            assert_eq!(rt; work.depth(), 0);
            assert_eq!(rt; words, [u64::MAX]);
        }
        Ok(())
    }

    // They are refused, and the stack's memory, all 5, is not written.
    fn check_short(
        rt: &impl Abort,
        stack: &mut [u32],
        table: &[u32],
        capacity: u32,
        refusal: Refusal,
    ) -> Result<(), Fail> {
        check_sizes(rt, stack, table, capacity, Some(refusal))?;
        for entry in stack.iter() {
            assert_eq!(rt; *entry, 5);
        }
        Ok(())
    }

    #[test]
    fn sizes(rt: HostRuntime) -> Result<(), Fail> {
        check_sizes(&rt, &mut [5; 8], &[0; 12], 3, None)?;
        check_sizes(&rt, &mut [5; 9], &[0; 13], 4, None)?;
        check_short(&rt, &mut [5; 7], &[0; 12], 3, Refusal::StackShort)?;
        check_short(&rt, &mut [5; 8], &[0; 11], 3, Refusal::TableShort)?;
        check_short(&rt, &mut [5; 8], &[0; 12], 2, Refusal::MarksShort)?;
        check_short(&rt, &mut [5; 7], &[0; 11], 2, Refusal::StackShort)?;
        check_short(&rt, &mut [5; 8], &[0; 11], 2, Refusal::TableShort)?;
        check_short(&rt, &mut [], &[], 0, Refusal::StackShort)
    }

    #[test]
    fn refused_in_the_middle(rt: HostRuntime) -> Result<(), Fail> {
        let chain = card(CHAIN)?;
        let mut words: [u64; 1] = [u64::MAX];
        let mut marks = WordMarks::new(&mut words, 64);
        let mut desk = Desk::new();
        desk.empty(&chain, &mut marks)?;
        desk.move_to(&chain, &marks, 0)?;
        desk.shows(&rt, &chain, &mut marks, &[0])?;
        let before = desk.standing(&marks);
        let short: [u32; 7] = [0; 7];
        let emptied = desk
            .workspace
            .empty(&chain, &short, &desk.table, &mut marks);
        assert_eq!(rt; emptied, Err(Refusal::StackShort));
        let reset = desk
            .workspace
            .reset(&chain, &desk.stack, &short, &mut marks);
        assert_eq!(rt; reset, Err(Refusal::TableShort));
        assert_eq!(rt; desk.standing(&marks), before);
        desk.shows(&rt, &chain, &mut marks, &[1, 2])?;
        desk.ends(&rt, &chain, &mut marks)
    }

    // Every call but `empty` finds that the graph is another one, before it looks at the memory.
    fn check_other<G: Graph, M: VisitMap>(
        rt: &impl Abort,
        desk: &mut Desk,
        graph: &G,
        marks: &mut M,
    ) -> Result<(), Fail> {
        desk.refuses(rt, graph, marks, Call::Next, Refusal::OtherGraph)?;
        desk.refuses(rt, graph, marks, Call::MoveTo(0), Refusal::OtherGraph)?;
        desk.refuses(
            rt,
            graph,
            marks,
            Call::MoveTo(u32::MAX),
            Refusal::OtherGraph,
        )?;
        desk.refuses(rt, graph, marks, Call::Reset, Refusal::OtherGraph)?;
        let before = desk.standing(marks);
        let mut none: [u32; 0] = [];
        let next = desk.workspace.next(graph, &mut none, &[], marks);
        assert_eq!(rt; next, Err(Refusal::OtherGraph));
        let moved = desk.workspace.move_to(graph, &mut none, &[], marks, 0);
        assert_eq!(rt; moved, Err(Refusal::OtherGraph));
        let reset = desk.workspace.reset(graph, &none, &[], marks);
        assert_eq!(rt; reset, Err(Refusal::OtherGraph));
        assert_eq!(rt; desk.standing(marks), before);
        Ok(())
    }

    #[test]
    fn other_graphs(rt: HostRuntime) -> Result<(), Fail> {
        let chain = card(CHAIN)?;
        let fan = card(FAN)?;
        let bare = card(BARE)?;
        let mut words: [u64; 1] = [u64::MAX];
        let mut marks = WordMarks::new(&mut words, 64);
        let mut desk = Desk::new();
        // A new record is for no nodes and no edges.
        check_other(&rt, &mut desk, &chain, &mut marks)?;
        check_other(&rt, &mut desk, &bare, &mut marks)?;
        desk.empty(&chain, &mut marks)?;
        desk.move_to(&chain, &marks, 0)?;
        check_other(&rt, &mut desk, &fan, &mut marks)?;
        check_other(&rt, &mut desk, &bare, &mut marks)?;
        check_other(&rt, &mut desk, &Image::new(), &mut marks)?;
        desk.shows(&rt, &chain, &mut marks, &[0, 1, 2])?;
        desk.ends(&rt, &chain, &mut marks)
    }

    #[test]
    fn equal_counts(rt: HostRuntime) -> Result<(), Fail> {
        let fan = card(FAN)?;
        let pair = card(PAIR)?;
        let chain = card(CHAIN)?;
        let mut words: [u64; 1] = [u64::MAX];
        let mut marks = WordMarks::new(&mut words, 64);
        let mut desk = Desk::new();
        // As many edges, other nodes.
        desk.empty(&fan, &mut marks)?;
        check_other(&rt, &mut desk, &pair, &mut marks)?;
        // As many of both: not told apart.
        desk.empty(&chain, &mut marks)?;
        desk.move_to(&Sparse, &marks, 0)?;
        desk.shows(&rt, &Sparse, &mut marks, &[0])?;
        desk.shows(&rt, &chain, &mut marks, &[2])?;
        desk.ends(&rt, &Sparse, &mut marks)
    }

    #[test]
    fn absent_nodes(rt: HostRuntime) -> Result<(), Fail> {
        let mut words: [u64; 1] = [u64::MAX];
        let mut marks = WordMarks::new(&mut words, 64);
        let mut desk = Desk::new();
        desk.empty(&Sparse, &mut marks)?;
        desk.refuses(
            &rt,
            &Sparse,
            &mut marks,
            Call::MoveTo(1),
            Refusal::AbsentNode,
        )?;
        desk.ends(&rt, &Sparse, &mut marks)?;
        desk.move_to(&Sparse, &marks, 0)?;
        desk.shows(&rt, &Sparse, &mut marks, &[0])?;
        for a in [1, 3, 4, u32::MAX] {
            desk.refuses(
                &rt,
                &Sparse,
                &mut marks,
                Call::MoveTo(a),
                Refusal::AbsentNode,
            )?;
        }
        desk.shows(&rt, &Sparse, &mut marks, &[2])?;
        desk.ends(&rt, &Sparse, &mut marks)
    }

    #[test]
    fn all_filtered_out(rt: HostRuntime) -> Result<(), Fail> {
        let chain = card(CHAIN)?;
        let none = NodeFiltered(chain, 0..0);
        let mut words: [u64; 1] = [u64::MAX];
        let mut marks = WordMarks::new(&mut words, 64);
        let mut desk = Desk::new();
        desk.empty(&none, &mut marks)?;
        for a in 0..4 {
            desk.refuses(&rt, &none, &mut marks, Call::MoveTo(a), Refusal::AbsentNode)?;
        }
        desk.ends(&rt, &none, &mut marks)?;
        desk.reset(&none, &mut marks)?;
        desk.ends(&rt, &none, &mut marks)
    }

    #[test]
    fn stray_entries(rt: HostRuntime) -> Result<(), Fail> {
        let chain = card(CHAIN)?;
        let two = NodeFiltered(chain, 0..2);
        let mut words: [u64; 1] = [u64::MAX];
        let mut marks = WordMarks::new(&mut words, 64);
        let mut desk = Desk::new();
        desk.empty(&chain, &mut marks)?;
        desk.move_to(&chain, &marks, 0)?;
        for entry in [3, 4, u32::MAX] {
            desk.stack[0] = entry;
            desk.refuses(&rt, &chain, &mut marks, Call::Next, Refusal::StrayEntry)?;
        }
        // Absent in a graph with as many nodes and edges.
        desk.stack[0] = 1;
        desk.refuses(&rt, &Sparse, &mut marks, Call::Next, Refusal::StrayEntry)?;
        // Absent by a filter.
        desk.stack[0] = 2;
        desk.refuses(&rt, &two, &mut marks, Call::Next, Refusal::StrayEntry)?;
        desk.shows(&rt, &chain, &mut marks, &[2])?;
        // Also where it is marked.
        desk.move_to(&chain, &marks, 2)?;
        desk.refuses(&rt, &two, &mut marks, Call::Next, Refusal::StrayEntry)?;
        desk.ends(&rt, &chain, &mut marks)
    }

    #[test]
    fn stray_below_marked(rt: HostRuntime) -> Result<(), Fail> {
        let fan = card(FAN)?;
        let bits: [u8; 1] = [11];
        let without_2 = NodeFiltered(fan, Bits(&bits));
        let mut words: [u64; 1] = [u64::MAX];
        let mut marks = WordMarks::new(&mut words, 64);
        let mut desk = Desk::new();
        desk.empty(&fan, &mut marks)?;
        desk.move_to(&fan, &marks, 0)?;
        desk.shows(&rt, &fan, &mut marks, &[0, 3])?;
        assert_eq!(rt; desk.workspace.depth(), 3);
        // An entry that is not taken does no harm.
        desk.stack[0] = 9;
        desk.shows(&rt, &fan, &mut marks, &[1])?;
        // On top of it only a marked one.
        desk.stack[1] = 3;
        desk.refuses(&rt, &fan, &mut marks, Call::Next, Refusal::StrayEntry)?;
        // The same with one that is absent by a filter.
        desk.stack[0] = 2;
        desk.refuses(&rt, &without_2, &mut marks, Call::Next, Refusal::StrayEntry)?;
        desk.shows(&rt, &fan, &mut marks, &[2])?;
        desk.ends(&rt, &fan, &mut marks)
    }

    #[test]
    fn rows_too_long(rt: HostRuntime) -> Result<(), Fail> {
        let pair = card(PAIR)?;
        let shorter = EdgeFiltered(pair, 1..4);
        let mut words: [u64; 1] = [u64::MAX];
        let mut marks = WordMarks::new(&mut words, 64);
        let mut desk = Desk::new();
        desk.empty(&pair, &mut marks)?;
        desk.move_to(&pair, &marks, 0)?;
        // Each node is unmarked once it was shown, so the stack grows by one each time.
        for k in 0..10u32 {
            desk.shows(&rt, &pair, &mut marks, &[k % 2])?;
            marks.unvisit(k % 2);
        }
        // 2 + 2 * 4 + 1 entries; the memory has more.
        assert_eq!(rt; desk.workspace.depth(), 11);
        desk.refuses(&rt, &pair, &mut marks, Call::Next, Refusal::StrayEntry)?;
        // The whole row counts, also where none of it would be pushed.
        marks.visit(1);
        desk.refuses(&rt, &pair, &mut marks, Call::Next, Refusal::StrayEntry)?;
        marks.unvisit(1);
        // A row of one still has its place.
        desk.shows(&rt, &shorter, &mut marks, &[0])?;
        assert_eq!(rt; desk.workspace.depth(), 11);
        desk.refuses(&rt, &pair, &mut marks, Call::Next, Refusal::StrayEntry)
    }

    #[test]
    fn long_row_below_marked(rt: HostRuntime) -> Result<(), Fail> {
        let fan = card(FAN)?;
        let mut words: [u64; 1] = [u64::MAX];
        let mut marks = WordMarks::new(&mut words, 64);
        let mut desk = Desk::new();
        desk.empty(&fan, &mut marks)?;
        desk.move_to(&fan, &marks, 0)?;
        // The topmost entry is made an unmarked 0, whose row of three is pushed in its place.
        for k in 0..6usize {
            desk.stack[2 * k] = 0;
            marks.unvisit(0);
            desk.shows(&rt, &fan, &mut marks, &[0])?;
        }
        // 4 + 2 * 4 + 1 entries.
        assert_eq!(rt; desk.workspace.depth(), 13);
        marks.unvisit(0);
        marks.visit(3);
        desk.stack[12] = 3;
        desk.stack[11] = 0;
        desk.refuses(&rt, &fan, &mut marks, Call::Next, Refusal::StrayEntry)?;
        // One lower, it just has its place.
        desk.stack[11] = 3;
        desk.stack[10] = 0;
        desk.shows(&rt, &fan, &mut marks, &[0])?;
        assert_eq!(rt; desk.workspace.depth(), 12);
        Ok(())
    }

    #[test]
    fn no_nodes(rt: HostRuntime) -> Result<(), Fail> {
        let graph = Image::new();
        let mut words: [u64; 1] = [u64::MAX];
        let mut marks = WordMarks::new(&mut words, 64);
        let mut stack: [u32; 1] = [5];
        let mut none: [u32; 0] = [];
        let mut workspace = Workspace::new();
        let next = workspace.next(&graph, &mut stack, &[], &mut marks);
        assert_eq!(rt; next, Ok(None));
        let moved = workspace.move_to(&graph, &mut stack, &[], &marks, 0);
        assert_eq!(rt; moved, Err(Refusal::AbsentNode));
        let next = workspace.next(&graph, &mut none, &[], &mut marks);
        assert_eq!(rt; next, Err(Refusal::StackShort));
        let moved = workspace.move_to(&graph, &mut none, &[], &marks, 0);
        assert_eq!(rt; moved, Err(Refusal::StackShort));
        let emptied = workspace.empty(&graph, &none, &[], &mut marks);
        assert_eq!(rt; emptied, Err(Refusal::StackShort));
        assert_eq!(rt; workspace.depth(), 0);
        assert_eq!(rt; stack, [5]);
        assert_eq!(rt; words, [u64::MAX]);
        Ok(())
    }

    // Moves before the end, moves to marked nodes and resets,
    // over views that leave 1 to 3, 2 to 0 and 3 to 0 of the fan.
    fn exercise<M: VisitMap>(rt: &impl Abort, marks: &mut M) -> Result<(), Fail> {
        let fan = card(FAN)?;
        let bits: [u8; 1] = [14];
        let pile = Reversed(EdgeFiltered(NodeFiltered(fan, 0..4), Bits(&bits)));
        let mut desk = Desk::new();
        desk.empty(&pile, marks)?;
        desk.ends(rt, &pile, marks)?;
        desk.move_to(&pile, marks, 1)?;
        desk.shows(rt, &pile, marks, &[1])?;
        // Before its end, to another node.
        desk.move_to(&pile, marks, 2)?;
        desk.shows(rt, &pile, marks, &[2, 0])?;
        desk.ends(rt, &pile, marks)?;
        // To a marked node.
        desk.move_to(&pile, marks, 1)?;
        desk.ends(rt, &pile, marks)?;
        // To an unmarked node whose row is marked.
        desk.move_to(&pile, marks, 3)?;
        desk.shows(rt, &pile, marks, &[3])?;
        desk.ends(rt, &pile, marks)?;
        check_resets(rt, &mut desk, &pile, marks)
    }

    fn check_resets<G: Graph, M: VisitMap>(
        rt: &impl Abort,
        desk: &mut Desk,
        pile: &G,
        marks: &mut M,
    ) -> Result<(), Fail> {
        // At an end.
        desk.reset(pile, marks)?;
        desk.ends(rt, pile, marks)?;
        desk.move_to(pile, marks, 1)?;
        desk.shows(rt, pile, marks, &[1, 3])?;
        // In the middle.
        desk.reset(pile, marks)?;
        desk.ends(rt, pile, marks)?;
        desk.move_to(pile, marks, 1)?;
        desk.shows(rt, pile, marks, &[1, 3, 0])?;
        // After the last node, before the end.
        desk.reset(pile, marks)?;
        desk.move_to(pile, marks, 3)?;
        desk.shows(rt, pile, marks, &[3, 0])?;
        desk.ends(rt, pile, marks)
    }

    #[test]
    fn with_word_marks(rt: HostRuntime) -> Result<(), Fail> {
        let mut words: [u64; 1] = [u64::MAX];
        exercise(&rt, &mut WordMarks::new(&mut words, 4))?;
        // 0 and 3 are marked, and bits past the capacity stay.
        assert_eq!(rt; words, [u64::MAX - 6]);
        Ok(())
    }

    #[test]
    fn with_flag_marks(rt: HostRuntime) -> Result<(), Fail> {
        let mut flags: [u8; 4] = [7; 4];
        exercise(&rt, &mut FlagMarks::new(&mut flags))?;
        assert_eq!(rt; flags, [1, 0, 0, 1]);
        Ok(())
    }
}
