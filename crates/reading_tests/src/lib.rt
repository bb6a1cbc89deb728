// Texts, lines and records by example. The expected values are reckoned from docs/TEXT.md and
// docs/REFUSALS.md.
#![tactic(auto)]

#[cfg(test)]
mod tests {
    use field::Letter;
    use pair_table::PairTable;
    use printing::{print_pages, run};
    use record::{Record, read_record};
    use refusal::{PageFault, TextFault};
    use session::{Handler, Reading, step};
    use sheet::Sheet;
    use std::alloc::Global;
    use std::process::Abort;
    use std::test::Fail;
    use text::{Text, cut_field, cut_line};

    fn pages<H: Handler>(heap: Global, handler: &mut H, bytes: &[u8]) -> Result<Vec<u8>, Fail> {
        let mut all = Vec::new(heap);
        print_pages(bytes, handler, &mut [0; 32], &mut all)?;
        Ok(all)
    }

    // The pages of a text that is read, which are those of one that is carried out.
    fn check_pages(
        rt: &impl Abort,
        heap: Global,
        bytes: &[u8],
        expected: &[u8],
    ) -> Result<(), Fail> {
        let read = pages(heap, &mut Reading, bytes)?;
        assert_eq!(rt; read.as_slice(), expected);
        let carried_out = pages(heap, &mut Sheet::open(PairTable::new()), bytes)?;
        assert_eq!(rt; carried_out.as_slice(), expected);
        Ok(())
    }

    #[test]
    fn texts_and_their_ends(rt: HostRuntime) -> Result<(), Fail> {
        let heap = rt.alloc();
        check_pages(&rt, heap, b"", b"")?;
        check_pages(&rt, heap, b"T\ta\t1", b"")?;
        check_pages(&rt, heap, b"T\ta\t1\n", b"")?;
        check_pages(&rt, heap, b"T", b"!\t1\t0\t22\n")?;
        check_pages(&rt, heap, b"T\n", b"!\t1\t0\t22\n")?;
        check_pages(&rt, heap, b"\n", b"!\t1\t1\t21\n")?;
        check_pages(&rt, heap, b"\n\n", b"!\t1\t1\t21\n!\t2\t1\t21\n")?;
        check_pages(&rt, heap, b"\nT\ta\t1\nx", b"!\t1\t1\t21\n!\t3\t1\t21\n")?;
        check_pages(&rt, heap, b"T\ta\t1\r\n", b"!\t1\t3\t12\n")?;
        check_pages(&rt, heap, b"\0\n\xff", b"!\t1\t1\t21\n!\t2\t1\t21\n")
    }

    #[test]
    fn longest_text(rt: HostRuntime) -> Result<(), Fail> {
        let heap = rt.alloc();
        let fits = vec![in heap; b'x'; 65_536]?;
        check_pages(&rt, heap, &fits, b"!\t1\t1\t21\n")?;
        let longer = vec![in heap; b'x'; 65_537]?;
        check_pages(&rt, heap, &longer, b"!\t0\t0\t51\n")?;
        let Err(fault) = Text::open(&longer) else {
            return Err(Fail::new("a text of 65,537 bytes was opened"));
        };
        assert_eq!(rt; fault, TextFault::TooLong);
        Ok(())
    }

    // As many lines as bytes, each with its number.
    #[test]
    fn most_lines(rt: HostRuntime) -> Result<(), Fail> {
        let feeds = vec![in rt.alloc(); b'\n'; 65_536]?;
        let read = pages(rt.alloc(), &mut Reading, &feeds)?;
        let carried_out = pages(rt.alloc(), &mut Sheet::open(PairTable::new()), &feeds)?;
        for all in [&read, &carried_out] {
            // 1 to 5 digits a line: 9, 90, 900, 9,000 and 55,537 lines of 8 bytes and the digits.
            assert_eq!(rt; all.len(), 840_862);
            assert!(rt;
                all.as_slice()
                    .ends_with(b"!\t65535\t1\t21\n!\t65536\t1\t21\n")
            );
        }
        Ok(())
    }

    // What the steps of a text answer, what they leave in the bytes that they are lent, and how many
    // lines are read.
    type Lent = (
        [Result<Option<usize>, PageFault>; 4],
        [u8; 8],
        [u8; 12],
        [usize; 2],
    );

    fn lend<H: Handler>(handler: &mut H) -> Result<Lent, Fail> {
        let mut text = Text::open(b"T\ta\t1\nx")?;
        let none = step(&mut text, handler, &mut []);
        let mut eight = [7; 8];
        let short = step(&mut text, handler, &mut eight);
        let before = text.lines_read();
        let mut twelve = [7; 12];
        let last = step(&mut text, handler, &mut twelve);
        let past = step(&mut text, handler, &mut twelve);
        Ok((
            [none, short, last, past],
            eight,
            twelve,
            [before, text.lines_read()],
        ))
    }

    // A page of 9 bytes in 8 and in 12; after the last line nothing is written.
    #[test]
    fn lent_bytes(rt: HostRuntime) -> Result<(), Fail> {
        let read = lend(&mut Reading)?;
        let carried_out = lend(&mut Sheet::open(PairTable::new()))?;
        for (answers, eight, twelve, lines) in [read, carried_out] {
            assert_eq!(rt;
                answers,
                [Ok(Some(0)), Err(PageFault::Short), Ok(Some(9)), Ok(None)]
            );
            assert_eq!(rt; eight, [7; 8]);
            assert_eq!(rt; &twelve, b"!\t2\t1\t21\n\x07\x07\x07");
            assert_eq!(rt; lines, [1, 2]);
        }
        Ok(())
    }

    // A whole run, by way of allocated memory.
    #[test]
    fn whole_runs(rt: HostRuntime) -> Result<(), Fail> {
        let mut all = Vec::new(rt.alloc());
        run(
            rt.alloc(),
            b"T\ta\t1\nT\ta\t1\nx" as &[u8],
            &mut all,
            &mut Reading,
        )?;
        assert_eq!(rt; all.as_slice(), b"!\t3\t1\t21\n" as &[u8]);
        Ok(())
    }

    #[test]
    fn first_field_and_first_line(rt: HostRuntime) {
        assert!(rt; matches!(cut_field(b"a\tb\tc"), (b"a", b"\tb\tc")));
        assert!(rt; matches!(cut_field(b"a"), (b"a", b"")));
        assert!(rt; matches!(cut_line(b"a\nb\n"), Some((b"a", b"b\n"))));
        assert!(rt; matches!(cut_line(b"a"), Some((b"a", b""))));
        assert!(rt; cut_line(b"").is_none());
    }

    // Names are parts of their line, with their place.
    #[test]
    fn records(rt: HostRuntime) -> Result<(), Fail> {
        let Ok(Record::T { name, time }) = read_record(b"T\tgen\t1000000") else {
            return Err(Fail::new("no task"));
        };
        assert_eq!(rt;
            (name.bytes, name.at, time),
            (b"gen" as &[u8], 2, 1_000_000)
        );
        let Ok(Record::N { task, need }) = read_record(b"N\timg\tlib-2") else {
            return Err(Fail::new("no need"));
        };
        assert_eq!(rt; (task.bytes, task.at), (b"img" as &[u8], 2));
        assert_eq!(rt; (need.bytes, need.at), (b"lib-2" as &[u8], 6));
        let Ok(Record::D { task, need }) = read_record(b"D\ta\ta") else {
            return Err(Fail::new("no drop"));
        };
        assert_eq!(rt; (task.at, need.at), (2, 4));
        let Ok(Record::R { name, time }) = read_record(b"R\tx_1\t7") else {
            return Err(Fail::new("no retiming"));
        };
        assert_eq!(rt; (name.bytes, time), (b"x_1" as &[u8], 7));
        let Ok(Record::P { workers, letter }) = read_record(b"P\t64\tB") else {
            return Err(Fail::new("no planning"));
        };
        assert_eq!(rt; (workers, letter), (64, Letter::B));
        Ok(())
    }
}
