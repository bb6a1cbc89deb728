// Sheets and need stores by example. The expected values are reckoned from docs/SHEETS.md and
// docs/REFUSALS.md.
#![tactic(auto)]

#[cfg(test)]
mod tests {
    use bit_rows::BitRows;
    use needs::NeedStore;
    use pair_table::PairTable;
    use printing::print_pages;
    use refusal::{Fault, PageFault, SheetFault, StoreFault};
    use session::step;
    use sheet::{Request, Sheet};
    use std::alloc::Global;
    use std::io::Write;
    use std::process::Abort;
    use std::test::Fail;
    use text::Text;

    const PLACES: usize = 4096;

    // The field and the number that an answer tells, or none where it is granted.
    fn told(answer: Result<(), SheetFault>) -> Option<(u8, u8)> {
        let refusal = answer.err()?.refusal(0);
        Some((refusal.field, refusal.number))
    }

    fn enter(name: &[u8], time: u64) -> Request<'_> {
        Request::Enter { name, time }
    }

    fn need<'a>(task: &'a [u8], need: &'a [u8]) -> Request<'a> {
        Request::Need { task, need }
    }

    fn release<'a>(task: &'a [u8], need: &'a [u8]) -> Request<'a> {
        Request::Drop { task, need }
    }

    fn retime(name: &[u8], time: u64) -> Request<'_> {
        Request::Retime { name, time }
    }

    // Each call with what it tells; 32 and 36 are told by full sheets, below.
    fn check_answers<S: NeedStore + Drop>(rt: &impl Abort, store: S) {
        let mut sheet = Sheet::open(store);
        let cases = [
            (enter(b"a", 1), None),
            (enter(b"abcdefghijklmnopqrstuvwx", 1_000_000), None),
            (enter(b"abcdefghijklmnopqrstuvwxy", 1), Some((2, 11))),
            (enter(b"", 0), Some((2, 11))),
            (enter(b"a", 0), Some((3, 13))),
            (enter(b"b", 1_000_001), Some((3, 13))),
            (enter(b"a", 2), Some((2, 31))),
            (enter(b"b", 2), None),
            (need(b"a b", b""), Some((2, 11))),
            (need(b"x", b"a b"), Some((3, 11))),
            (need(b"x", b"y"), Some((2, 33))),
            (need(b"a", b"y"), Some((3, 33))),
            (need(b"x", b"x"), Some((2, 33))),
            (need(b"a", b"a"), Some((0, 34))),
            (need(b"a", b"b"), None),
            (need(b"a", b"b"), Some((0, 35))),
            (need(b"b", b"a"), None),
            (release(b"a", b""), Some((3, 11))),
            (release(b"x", b"b"), Some((2, 33))),
            (release(b"b", b"x"), Some((3, 33))),
            (release(b"b", b"b"), Some((0, 37))),
            (release(b"a", b"b"), None),
            (release(b"a", b"b"), Some((0, 37))),
            (retime(b"*", 0), Some((2, 11))),
            (retime(b"x", 0), Some((3, 13))),
            (retime(b"x", 1), Some((2, 33))),
            (retime(b"a", 1_000_000), None),
        ];
        for (request, expected) in cases {
            assert_eq!(rt; told(sheet.carry_out(request)), expected);
        }
        assert_eq!(rt;
            (sheet.len(), sheet.time(0), sheet.time(2), sheet.time(3)),
            (3, Some(1_000_000), Some(2), None)
        );
        assert_eq!(rt; (sheet.number(b"b"), sheet.number(b"c")), (Some(2), None));
        assert_eq!(rt;
            (sheet.store().contains(0, 2), sheet.store().contains(2, 0)),
            (false, true)
        );
    }

    // The same life over both stores: the same answers.
    #[test]
    fn answers_over_both_stores(rt: HostRuntime) {
        check_answers(&rt, PairTable::new());
        check_answers(&rt, BitRows::new());
    }

    fn check_pages<S: NeedStore>(
        rt: &impl Abort,
        sheet: &mut Sheet<S>,
        heap: Global,
        bytes: &[u8],
        expected: &[u8],
    ) -> Result<(), Fail> {
        let mut all = Vec::new(heap);
        print_pages(bytes, sheet, &mut [0; 32], &mut all)?;
        assert_eq!(rt; all.as_slice(), expected);
        Ok(())
    }

    // The same refusals by lines. A line's numbers are read before its task is looked up.
    #[test]
    fn answers_by_lines(rt: HostRuntime) -> Result<(), Fail> {
        let mut sheet = Sheet::open(PairTable::new());
        let text =
            b"T\ta\t1\nT\ta\t2\nT\tb\t3\nN\tx\ty\nN\ta\ty\nN\ta\ta\nN\ta\tb\nN\ta\tb\nD\tb\ta\nD\tx\ta\nR\tx\t0\nR\tx\t1\nR\tb\t9\nP\t1\tE\n";
        let pages =
            b"!\t2\t2\t31\n!\t4\t2\t33\n!\t5\t3\t33\n!\t6\t0\t34\n!\t8\t0\t35\n!\t9\t0\t37\n!\t10\t2\t33\n!\t11\t3\t12\n!\t12\t2\t33\n";
        check_pages(&rt, &mut sheet, rt.alloc(), text, pages)?;
        assert_eq!(rt;
            (sheet.len(), sheet.time(0), sheet.time(1)),
            (2, Some(1), Some(9))
        );
        assert!(rt; sheet.store().contains(0, 1));
        Ok(())
    }

    // A refused line in one byte too few: neither text nor sheet goes on. Then it does.
    #[test]
    fn a_step_that_stays(rt: HostRuntime) -> Result<(), Fail> {
        let mut text = Text::open(b"T\ta\t1\nT\ta\t2\nT\tb\t1\n")?;
        let mut sheet = Sheet::open(BitRows::new());
        assert_eq!(rt; step(&mut text, &mut sheet, &mut [])?, Some(0));
        let mut eight = [7; 8];
        assert_eq!(rt;
            step(&mut text, &mut sheet, &mut eight),
            Err(PageFault::Short)
        );
        assert_eq!(rt; (eight, text.lines_read(), sheet.len()), ([7; 8], 1, 1));
        let mut nine = [7; 9];
        assert_eq!(rt; step(&mut text, &mut sheet, &mut nine)?, Some(9));
        assert_eq!(rt; &nine, b"!\t2\t2\t31\n");
        assert_eq!(rt; step(&mut text, &mut sheet, &mut [])?, Some(0));
        assert_eq!(rt;
            (sheet.name(0), sheet.name(1)),
            (Some(b"a" as &[u8]), Some(b"b" as &[u8]))
        );
        Ok(())
    }

    // t000 to t999.
    fn name_of(heap: Global, number: usize) -> Result<String, Fail> {
        Ok(format!(in heap; "t{number:03}")?)
    }

    // The k-th of 512 x 511 needs: the task k % 512 needs one of those after it, in a circle.
    fn pair_of(k: usize) -> (usize, usize) {
        let task = k % 512;
        (task, (task + 1 + k / 512 % 511) % 512)
    }

    // 512 tasks and 4,096 needs are taken; what is told of one more of each.
    fn fill<S: NeedStore>(
        rt: &impl Abort,
        heap: Global,
        sheet: &mut Sheet<S>,
    ) -> Result<(Option<(u8, u8)>, Option<(u8, u8)>), Fail> {
        for number in 0..512 {
            let name = name_of(heap, number)?;
            assert_eq!(rt; told(sheet.enter(name.as_bytes(), 1)), None);
        }
        for k in 0..PLACES {
            assert_eq!(rt; told(enter_pair(heap, sheet, k)?), None);
        }
        Ok((
            told(sheet.enter(b"t512", 1)),
            told(enter_pair(heap, sheet, PLACES)?),
        ))
    }

    fn enter_pair<S: NeedStore>(
        heap: Global,
        sheet: &mut Sheet<S>,
        k: usize,
    ) -> Result<Result<(), SheetFault>, Fail> {
        let (task, need) = pair_of(k);
        let (task, need) = (name_of(heap, task)?, name_of(heap, need)?);
        Ok(sheet.need(task.as_bytes(), need.as_bytes()))
    }

    #[test]
    fn full_sheets(rt: HostRuntime) -> Result<(), Fail> {
        let heap = rt.alloc();
        let mut sheet = Sheet::open(PairTable::new());
        assert_eq!(rt;
            fill(&rt, heap, &mut sheet)?,
            (Some((0, 32)), Some((0, 36)))
        );
        // A need that stands is told before a full store, and a drop makes room for one more.
        assert_eq!(rt; told(sheet.need(b"t000", b"t001")), Some((0, 35)));
        assert_eq!(rt; told(sheet.drop_need(b"t300", b"t301")), None);
        assert_eq!(rt; told(sheet.need(b"t000", b"t009")), None);
        assert_eq!(rt; told(sheet.need(b"t300", b"t301")), Some((0, 36)));
        let mut roomy = Sheet::open(BitRows::new());
        assert_eq!(rt; fill(&rt, heap, &mut roomy)?, (Some((0, 32)), None));
        Ok(())
    }

    // The same by lines: the 513th task and the 4,097th need are refused.
    #[test]
    fn full_sheets_by_lines(rt: HostRuntime) -> Result<(), Fail> {
        let mut text = Vec::new(rt.alloc());
        for number in 0..513 {
            writeln!(text, "T\tt{number:03}\t1")?;
        }
        for k in 0..=PLACES {
            let (task, need) = pair_of(k);
            writeln!(text, "N\tt{task:03}\tt{need:03}")?;
        }
        text.extend_from_slice(b"D\tt300\tt301\nN\tt000\tt009\n")?;
        let mut sheet = Sheet::open(PairTable::new());
        check_pages(
            &rt,
            &mut sheet,
            rt.alloc(),
            &text,
            b"!\t513\t0\t32\n!\t4610\t0\t36\n",
        )
    }

    // The number that a store's answer tells, or none where it is granted.
    fn number(answer: Result<(), StoreFault>) -> Option<u8> {
        answer.err().map(|fault| fault.number())
    }

    // A store by itself: its refusals in their order, and its questions at the edges.
    fn check_store<S: NeedStore>(rt: &impl Abort, store: &mut S) {
        for (a, b, expected) in [
            (3, 64, None),
            (3, 64, Some(35)),
            (3, 63, None),
            (3, 511, None),
            (4, 64, None),
            (511, 64, None),
            (64, 3, None),
            (512, 0, Some(38)),
            (0, 512, Some(38)),
            (usize::MAX, usize::MAX, Some(38)),
        ] {
            assert_eq!(rt; number(store.insert(a, b)), expected);
        }
        for (a, k, expected) in [
            (3, 0, Some(63)),
            (3, 63, Some(63)),
            (3, 64, Some(64)),
            (3, 65, Some(511)),
            (3, 512, None),
            (5, 0, None),
            (512, 0, None),
        ] {
            assert_eq!(rt; store.next_need(a, k), expected);
        }
        for (b, k, expected) in [
            (64, 0, Some(3)),
            (64, 4, Some(4)),
            (64, 5, Some(511)),
            (64, 512, None),
            (3, 64, Some(64)),
            (3, 65, None),
            (usize::MAX, 0, None),
        ] {
            assert_eq!(rt; store.next_follower(b, k), expected);
        }
        for (a, b, expected) in [
            (64, 4, Some(37)),
            (512, 0, Some(37)),
            (3, 64, None),
            (3, 64, Some(37)),
        ] {
            assert_eq!(rt; number(store.remove(a, b)), expected);
        }
        assert_eq!(rt;
            (store.next_need(3, 64), store.next_follower(64, 0)),
            (Some(511), Some(4))
        );
        assert_eq!(rt;
            (store.contains(3, 64), store.contains(3, 63)),
            (false, true)
        );
        store.clear();
        assert_eq!(rt;
            (store.next_need(3, 0), store.next_follower(64, 0)),
            (None, None)
        );
    }

    #[test]
    fn stores_by_themselves(rt: HostRuntime) {
        check_store(&rt, &mut PairTable::new());
        check_store(&rt, &mut BitRows::new());
    }
}
