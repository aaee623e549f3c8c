// Flush plans of small cards and of one as large as a card can be, and every fault of a plan.
#![tactic(auto)]

#[cfg(test)]
mod cards;
#[cfg(test)]
mod lent;

#[cfg(test)]
mod tests {
    use crate::cards::{MOST_BLOCKS, long_chain};
    use crate::lent::Lent;
    use model::Kind;
    use std::alloc::Global;
    use std::process::Abort;
    use std::test::*;
    use support::pack;

    const ONE_WAY: Kind = Kind::OneWay;

    const TWO_WAY: Kind = Kind::TwoWay;

    // Three blocks, links from 0 to 1 and from 1 to 2: 96 bytes.
    const CHAIN: [(u32, u32); 2] = [(0, 1), (1, 2)];

    const FAN: [(u32, u32); 4] = [(0, 1), (0, 2), (0, 3), (3, 1)];

    const RING: [(u32, u32); 3] = [(0, 1), (1, 2), (2, 1)];

    const LOOP: [(u32, u32); 3] = [(0, 1), (1, 1), (1, 2)];

    const PAIRS: [(u32, u32); 5] = [(0, 1), (1, 2), (1, 2), (2, 3), (3, 3)];

    // Nine blocks, so bits of two bytes; the last two have cycles.
    const NINE: [[(u32, u32); 7]; 5] = [
        [(7, 3), (2, 1), (6, 3), (6, 1), (5, 4), (0, 1), (6, 0)],
        [(5, 4), (6, 1), (8, 2), (4, 2), (8, 6), (8, 7), (8, 7)],
        [(4, 3), (8, 0), (6, 2), (5, 7), (1, 2), (6, 2), (8, 4)],
        [(6, 5), (2, 5), (8, 6), (3, 0), (6, 8), (1, 8), (2, 4)],
        [(3, 7), (2, 0), (4, 1), (8, 1), (8, 7), (7, 8), (8, 3)],
    ];

    // A card's kind, blocks and links, its changed blocks, and what is due.
    type Case<'a> = (
        Kind,
        u32,
        &'a [(u32, u32)],
        &'a [u8],
        Result<&'a [u32], u32>,
    );

    // The plan of a card's changed blocks is this order, or this block is on a cycle.
    fn check(rt: &impl Abort, heap: Global, case: Case) -> Result<(), Fail> {
        let (kind, blocks, links, changed, due) = case;
        let bytes = pack(heap, kind, blocks, links)?;
        let mut lent = Lent::new(heap, 64, 64, 1, 16)?;
        let said = lent.plan(bytes.as_slice(), changed, 64)?;
        let room = links
            .len()
            .saturating_mul(2)
            .saturating_add(blocks as usize + 1);
        lent.check_clean(rt, room, 4 * blocks as usize);
        lent.check_answer(rt, said, due);
        Ok(())
    }

    #[test]
    fn orders(rt: HostRuntime) -> Result<(), Fail> {
        let cases: [Case; 15] = [
            (ONE_WAY, 0, &[], &[0xff], Ok(&[])),
            (ONE_WAY, 3, &CHAIN, &[0b111], Ok(&[2, 1, 0])),
            (ONE_WAY, 3, &CHAIN, &[0b011], Ok(&[1, 0])),
            (ONE_WAY, 3, &CHAIN, &[0b110], Ok(&[2, 1])),
            (ONE_WAY, 3, &CHAIN, &[0b101], Ok(&[2, 0])),
            (ONE_WAY, 3, &CHAIN, &[], Ok(&[])),
            (ONE_WAY, 3, &CHAIN, &[0xff], Ok(&[2, 1, 0])),
            (ONE_WAY, 3, &CHAIN, &[0b11111000, 0xff], Ok(&[])),
            (ONE_WAY, 2, &[(0, 1), (0, 1)], &[0b11], Ok(&[1, 0])),
            (ONE_WAY, 4, &FAN, &[0b1111], Ok(&[2, 1, 3, 0])),
            (ONE_WAY, 4, &FAN, &[0b0111], Ok(&[2, 1, 0])),
            (ONE_WAY, 4, &FAN, &[0b1101], Ok(&[3, 2, 0])),
            (
                ONE_WAY,
                9,
                &NINE[0],
                &[0b10111111, 1],
                Ok(&[8, 4, 5, 3, 7, 1, 2, 0]),
            ),
            (
                ONE_WAY,
                9,
                &NINE[1],
                &[0b11101101, 1],
                Ok(&[7, 6, 5, 3, 2, 8, 0]),
            ),
            (
                ONE_WAY,
                9,
                &NINE[2],
                &[0b11110111, 1],
                Ok(&[7, 5, 4, 2, 6, 1, 0, 8]),
            ),
        ];
        for case in cases {
            check(&rt, rt.alloc(), case)?;
        }
        Ok(())
    }

    #[test]
    fn cycles(rt: HostRuntime) -> Result<(), Fail> {
        let cases: [Case; 15] = [
            (ONE_WAY, 2, &[(0, 1), (1, 0)], &[0b11], Err(1)),
            (ONE_WAY, 2, &[(0, 1), (1, 0)], &[0b10], Ok(&[1])),
            (ONE_WAY, 1, &[(0, 0)], &[1], Err(0)),
            (ONE_WAY, 1, &[(0, 0)], &[0], Ok(&[])),
            (ONE_WAY, 3, &LOOP, &[0b111], Err(1)),
            (ONE_WAY, 3, &LOOP, &[0b101], Ok(&[2, 0])),
            (ONE_WAY, 3, &RING, &[0b111], Err(2)),
            (ONE_WAY, 3, &RING, &[0b011], Ok(&[1, 0])),
            (TWO_WAY, 2, &[(0, 1)], &[0b11], Err(1)),
            (TWO_WAY, 2, &[(0, 1)], &[0b10], Ok(&[1])),
            (TWO_WAY, 5, &PAIRS, &[0b11111], Err(3)),
            (TWO_WAY, 5, &PAIRS, &[0b10111], Err(1)),
            (TWO_WAY, 5, &PAIRS, &[0b10101], Ok(&[4, 2, 0])),
            (ONE_WAY, 9, &NINE[3], &[0b11101111, 1], Err(8)),
            (ONE_WAY, 9, &NINE[4], &[0b11110110, 1], Err(7)),
        ];
        for case in cases {
            check(&rt, rt.alloc(), case)?;
        }
        Ok(())
    }

    // A plan of these bytes over so much stack, table, marks and result memory is refused, and nothing is written.
    fn check_refused(
        rt: &impl Abort,
        heap: Global,
        bytes: &[u8],
        sizes: (usize, usize, u32, usize),
        due: (u8, Option<u32>),
    ) -> Result<(), Fail> {
        let (stack, table, capacity, res) = sizes;
        let mut lent = Lent::new(heap, stack, table, 1, res)?;
        let fault = lent.plan(bytes, &[0xff], capacity).err();
        assert_eq!(rt;
            fault.map(|fault| (fault.number(), fault.offset())),
            Some(due)
        );
        lent.check_kept(rt);
        Ok(())
    }

    #[test]
    fn memory_faults(rt: HostRuntime) -> Result<(), Fail> {
        let heap = rt.alloc();
        let chain = pack(heap, ONE_WAY, 3, &CHAIN)?;
        let bytes = chain.as_slice();
        assert_eq!(rt; bytes.len(), 96);
        // Of several that fail the first is told.
        let cases = [
            (7, 12, 3, 3, 8),
            (8, 11, 3, 3, 9),
            (8, 12, 2, 3, 10),
            (8, 12, 3, 2, 15),
            (7, 11, 2, 2, 8),
            (8, 11, 2, 2, 9),
            (8, 12, 2, 2, 10),
            (0, 0, 0, 0, 8),
        ];
        for (stack, table, capacity, res, number) in cases {
            let sizes = (stack, table, capacity, res);
            check_refused(&rt, heap, bytes, sizes, (number, None))?;
        }
        Ok(())
    }

    // The bytes of the chain with one of them changed are refused so, however short the memory is.
    fn check_image(
        rt: &impl Abort,
        heap: Global,
        place: usize,
        value: u8,
        due: (u8, Option<u32>),
    ) -> Result<(), Fail> {
        let mut bytes = pack(heap, ONE_WAY, 3, &CHAIN)?;
        if let Some(byte) = bytes.get_mut(place) {
            *byte = value;
        }
        check_refused(rt, heap, bytes.as_slice(), (8, 12, 3, 3), due)?;
        check_refused(rt, heap, bytes.as_slice(), (0, 0, 0, 0), due)
    }

    #[test]
    fn image_faults(rt: HostRuntime) -> Result<(), Fail> {
        let heap = rt.alloc();
        check_refused(&rt, heap, &[], (8, 12, 3, 3), (1, Some(0)))?;
        check_refused(&rt, heap, &[0; 31], (0, 0, 0, 0), (1, Some(31)))?;
        let cases = [
            (1, 1, 2, 0),
            (6, 1, 3, 4),
            (10, 5, 3, 8),
            (12, 81, 4, 12),
            (16, 81, 4, 16),
            (20, 89, 4, 20),
            (24, 81, 4, 24),
            (28, 89, 4, 28),
            (44, 3, 5, 44),
            (52, 3, 6, 52),
            (92, 0, 7, 92),
        ];
        for (place, value, number, offset) in cases {
            check_image(&rt, heap, place, value, (number, Some(offset)))?;
        }
        Ok(())
    }

    // As much memory as the chain asks for, and more: what is past it stays as found.
    #[test]
    fn sizes(rt: HostRuntime) -> Result<(), Fail> {
        let heap = rt.alloc();
        let chain = pack(heap, ONE_WAY, 3, &CHAIN)?;
        for more in [0usize, 1, 5] {
            let mut lent = Lent::new(heap, 8 + more, 12 + more, 1, 3 + more)?;
            let said = lent.plan(chain.as_slice(), &[0b111], 3)?;
            assert_eq!(rt; lent.words.first().copied(), Some(u64::MAX << 3));
            lent.words.clear();
            lent.check_clean(&rt, 8, 12);
            lent.check_answer(&rt, said, Ok(&[2, 1, 0]));
        }
        Ok(())
    }

    // The largest card, with one order of its blocks: the last one first.
    #[test]
    fn largest(rt: HostRuntime) -> Result<(), Fail> {
        let heap = rt.alloc();
        let card = long_chain(heap)?;
        let changed = vec![in heap; 255u8; 8192]?;
        let mut lent = Lent::new(heap, 589824, 262140, 1024, 65535)?;
        let said = lent.plan(card.as_slice(), changed.as_slice(), 65536)?;
        lent.check_clean(&rt, 589824, 262140);
        assert_eq!(rt; said, Ok(MOST_BLOCKS));
        assert!(rt; lent.res.iter().copied().eq((0..MOST_BLOCKS).rev()));
        Ok(())
    }
}
