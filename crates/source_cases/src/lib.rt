// Logs, ramps and unions at the edges of their bounds.
#![tactic(auto)]

#[cfg(test)]
mod tests {
    use sources::{Line, Log, Ramp, Range, Shape, Source, SourceFault, Union, padded_row};
    use std::process::Abort;
    use std::test::Fail;

    // All columns alike.
    fn shape(width: usize, limit: usize, low: i64, high: i64) -> Shape {
        Shape {
            width,
            limit,
            columns: [Range { low, high }; 6],
        }
    }

    fn log_reply(bytes: &[u8], shape: Shape) -> Result<(), SourceFault> {
        Log::new().open(bytes, shape)
    }

    fn ramp_reply(width: usize, count: usize, start: i64, step: i64) -> Result<(), SourceFault> {
        Ramp::new().open(width, count, [Line { start, step }; 6])
    }

    fn check_unopened<S: Source>(rt: &impl Abort, source: &S) {
        assert_eq!(rt; source.width(), 1);
        assert_eq!(rt; source.limit(), 0);
        assert_eq!(rt; source.low(0), 0);
        assert_eq!(rt; source.high(0), 0);
        assert_eq!(rt; source.count(), 0);
        assert_eq!(rt; source.cell(0, 0), 0);
    }

    #[test]
    fn unopened(rt: HostRuntime) {
        check_unopened(&rt, &Log::new());
        check_unopened(&rt, &Ramp::new());
    }

    #[test]
    fn shapes_of_a_log(rt: HostRuntime) {
        let faulty = Err(SourceFault::Shape);
        for (width, reply) in [(0, faulty), (1, Ok(())), (6, Ok(())), (7, faulty)] {
            assert_eq!(rt; log_reply(&[], shape(width, 0, 0, 0)), reply);
        }
        for (limit, reply) in [(4096, Ok(())), (4097, faulty)] {
            assert_eq!(rt; log_reply(&[], shape(1, limit, 0, 0)), reply);
        }
        for (low, high, reply) in [
            (-1_000_000, 1_000_000, Ok(())),
            (-1_000_001, 0, faulty),
            (0, 1_000_001, faulty),
            (1, 0, faulty),
        ] {
            assert_eq!(rt; log_reply(&[], shape(1, 0, low, high)), reply);
        }
    }

    #[test]
    fn rows_of_a_log(rt: HostRuntime) -> Result<(), Fail> {
        let bytes = vec![in rt.alloc(); 0u8; 8194]?;
        let bytes = bytes.as_slice();
        assert!(rt; bytes.len() == 8194);
        let narrow = shape(1, 4096, 0, 0);
        assert_eq!(rt; log_reply(&bytes[0..8192], narrow), Ok(()));
        assert_eq!(rt; log_reply(bytes, narrow), Err(SourceFault::Rows));
        assert_eq!(rt; log_reply(&bytes[0..3], narrow), Err(SourceFault::Rows));
        Ok(())
    }

    // 1200 is 0x04b0, and with its bytes swapped 0xb004, which is 45060.
    #[test]
    fn swapped_bytes(rt: HostRuntime) {
        let narrow = shape(2, 2, 0, 2000);
        let good = [0, 5, 0x04, 0xb0, 0, 6, 0x04, 0xb0];
        let swapped = [0, 5, 0x04, 0xb0, 0, 6, 0xb0, 0x04];
        let mut log = Log::new();
        assert_eq!(rt; log.open(&good, narrow), Ok(()));
        let cell = SourceFault::Cell { row: 1, column: 1 };
        assert_eq!(rt; log.open(&swapped, narrow), Err(cell));
        assert_eq!(rt;
            log.cell(1, 1),
            1200,
            "a refused opening leaves the log as it was"
        );
        assert_eq!(rt; log_reply(&swapped, shape(2, 2, 0, 45060)), Ok(()));
    }

    // Each fault is told before those that follow it.
    #[test]
    fn shape_then_rows_then_cells(rt: HostRuntime) {
        let bytes = [0, 9, 0, 9, 0];
        assert_eq!(rt;
            log_reply(&bytes, shape(7, 1, 0, 0)),
            Err(SourceFault::Shape)
        );
        assert_eq!(rt;
            log_reply(&bytes, shape(1, 1, 0, 0)),
            Err(SourceFault::Rows)
        );
        assert_eq!(rt;
            log_reply(&bytes[0..4], shape(1, 1, 0, 0)),
            Err(SourceFault::Rows)
        );
        let cell = SourceFault::Cell { row: 0, column: 0 };
        assert_eq!(rt; log_reply(&bytes[0..4], shape(1, 2, 0, 0)), Err(cell));
    }

    #[test]
    fn ramps(rt: HostRuntime) {
        let faulty = Err(SourceFault::Shape);
        for (width, count, start, step, reply) in [
            (0, 1, 0, 0, faulty),
            (1, 1, 0, 0, Ok(())),
            (6, 1, 0, 0, Ok(())),
            (7, 1, 0, 0, faulty),
            (1, 0, 0, 0, faulty),
            (1, 4096, 0, 0, Ok(())),
            (1, 4097, 0, 0, faulty),
            (1, 1, 1_000_000, 1_000_000, Ok(())),
            (1, 1, 1_000_001, 0, faulty),
            (1, 1, 0, -1_000_001, faulty),
            (1, 2, -1_000_000, 1_000_000, Ok(())),
            (1, 2, 1_000_000, 1, faulty),
        ] {
            assert_eq!(rt; ramp_reply(width, count, start, step), reply);
        }
    }

    #[test]
    fn falling_ramp(rt: HostRuntime) {
        let mut ramp = Ramp::new();
        assert_eq!(rt; ramp.open(1, 3, [Line { start: 5, step: -2 }; 6]), Ok(()));
        assert_eq!(rt; (ramp.low(0), ramp.high(0)), (1, 5));
        assert_eq!(rt; (ramp.cell(0, 0), ramp.cell(2, 0)), (5, 1));
        assert_eq!(rt;
            (ramp.cell(3, 0), ramp.cell(0, 1)),
            (0, 0),
            "a missing row and column"
        );
        assert_eq!(rt; (ramp.low(1), ramp.high(1)), (0, 0));
    }

    fn ramp(width: usize, count: usize, start: i64, step: i64) -> Ramp {
        let mut ramp = Ramp::new();
        let _ = ramp.open(width, count, [Line { start, step }; 6]);
        ramp
    }

    #[test]
    fn unions(rt: HostRuntime) {
        let both = Union {
            first: ramp(1, 2, 10, 1),
            second: ramp(1, 3, -7, 0),
        };
        assert_eq!(rt; (both.width(), both.limit(), both.count()), (1, 5, 5));
        assert_eq!(rt; (both.low(0), both.high(0)), (-7, 11));
        let nested = Union {
            first: both,
            second: ramp(1, 1, 99, 0),
        };
        assert_eq!(rt; (nested.limit(), nested.count()), (6, 6));
        assert_eq!(rt;
            (nested.cell(1, 0), nested.cell(4, 0), nested.cell(5, 0)),
            (11, -7, 99)
        );
        assert_eq!(rt;
            (nested.cell(6, 0), nested.cell(0, 1)),
            (0, 0),
            "a missing row and column"
        );
    }

    #[test]
    fn unions_that_do_not_join(rt: HostRuntime) {
        let full = Union {
            first: ramp(1, 4095, 0, 0),
            second: ramp(1, 1, 1, 0),
        };
        assert_eq!(rt;
            (full.limit(), full.count(), full.cell(4095, 0)),
            (4096, 4096, 1)
        );
        let past = Union {
            first: ramp(1, 4095, 3, 0),
            second: ramp(1, 2, 1, 0),
        };
        assert_eq!(rt; (past.width(), past.limit(), past.count()), (1, 0, 0));
        assert_eq!(rt; (past.low(0), past.high(0), past.cell(0, 0)), (3, 3, 0));
        let wide = Union {
            first: ramp(2, 1, 3, 0),
            second: ramp(1, 1, 1, 0),
        };
        assert_eq!(rt; (wide.width(), wide.limit(), wide.count()), (2, 0, 0));
        assert_eq!(rt; (wide.low(1), wide.high(1), wide.cell(0, 0)), (3, 3, 0));
    }

    // A row in six cells, where it is there.
    fn row_of<S: Source>(source: &S, row: usize) -> Option<[i64; 6]> {
        if row < source.count() {
            Some(padded_row(source, source.width(), row))
        } else {
            None
        }
    }

    #[test]
    fn rows_in_six_cells(rt: HostRuntime) {
        let narrow = ramp(2, 3, 5, -2);
        assert_eq!(rt; row_of(&narrow, 1), Some([3, 3, 0, 0, 0, 0]));
        assert_eq!(rt; row_of(&narrow, 3), None);
        assert_eq!(rt; row_of(&ramp(6, 1, 7, 0), 0), Some([7; 6]));
    }

    #[test]
    fn faults_in_words(rt: HostRuntime) -> Result<(), Fail> {
        for (fault, text) in [
            (SourceFault::Shape, "its shape is faulty"),
            (
                SourceFault::Rows,
                "its bytes are no whole rows, or too many",
            ),
            (
                SourceFault::Cell { row: 1, column: 2 },
                "the cell at this row and column is out of range",
            ),
        ] {
            assert_eq!(rt; fault.to_string(rt.alloc())?.as_str(), text);
        }
        Ok(())
    }
}
