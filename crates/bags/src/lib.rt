// How far the rows of two sources are apart.
#![tactic(auto)]

mod distances;
mod merging;
mod plain;

pub use distances::distance;

#[cfg(test)]
mod tests {
    use crate::distance;
    use sources::{Log, Range, Shape, SourceFault};
    use std::test::Fail;

    // A log of at most 8 rows, where each register may have any value.
    fn log(width: usize, bytes: &[u8]) -> Result<Log<'_>, SourceFault> {
        let columns = [Range {
            low: 0,
            high: 65535,
        }; 6];
        let mut log = Log::new();
        log.open(
            bytes,
            Shape {
                width,
                limit: 8,
                columns,
            },
        )?;
        Ok(log)
    }

    // How far two logs are apart, each with a width and bytes.
    fn apart(first: (usize, &[u8]), second: (usize, &[u8])) -> Result<usize, SourceFault> {
        Ok(distance(&log(first.0, first.1)?, &log(second.0, second.1)?))
    }

    #[test]
    fn rows_changed_and_added(rt: HostRuntime) -> Result<(), Fail> {
        assert_eq!(rt;
            apart((1, &[0, 1, 0, 2, 0, 3]), (1, &[0, 1, 0, 9, 0, 3]))?,
            2
        );
        assert_eq!(rt; apart((1, &[0, 1, 0, 2]), (1, &[0, 1, 0, 2, 0, 2]))?, 1);
        Ok(())
    }

    #[test]
    fn order_does_not_count(rt: HostRuntime) -> Result<(), Fail> {
        assert_eq!(rt;
            apart(
                (2, &[0, 7, 0, 1, 0, 7, 0, 2]),
                (2, &[0, 7, 0, 2, 0, 7, 0, 1]),
            )?,
            0
        );
        Ok(())
    }

    #[test]
    fn widths_differ(rt: HostRuntime) -> Result<(), Fail> {
        assert_eq!(rt; apart((1, &[0, 5]), (2, &[0, 5, 0, 0]))?, 2);
        Ok(())
    }
}
