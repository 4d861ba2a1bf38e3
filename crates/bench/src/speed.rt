// How many voxels were swept in how long a time.
use std::fmt;
use std::time::Duration;

#[derive(Clone, Copy)]
pub(crate) struct Speed {
    pub(crate) updates: u64,
    took: Duration,
}

impl Speed {
    pub(crate) fn new() -> Speed {
        Speed {
            updates: 0,
            took: Duration::ZERO,
        }
    }

    // With one more sweep. Neither number comes near its limit, where it would stay.
    pub(crate) fn with(self, voxels: usize, took: Duration) -> Speed {
        Speed {
            updates: self.updates.saturating_add(voxels as u64),
            took: self.took.saturating_add(took),
        }
    }
}

impl fmt::Display for Speed {
    fn fmt<W: fmt::Write>(&self, f: &mut fmt::Formatter<W>) -> fmt::Result {
        let (seconds, micros) = (self.took.as_secs(), self.took.subsec_micros());
        let updates = u128::from(self.updates);
        // An update a microsecond is a million a second.
        let millions = updates.checked_div(self.took.as_micros()).unwrap_or(0);
        write!(
            f,
            "{seconds}.{micros:06} s {millions} million voxel updates a second"
        )
    }
}

#[cfg(test)]
mod tests {
    use super::*;
    use std::test::Fail;

    #[test]
    fn speed_is_told_in_seconds_and_millions(rt: HostRuntime) -> Result<(), Fail> {
        let sweep = Duration::from_millis(125);
        let speed = Speed::new().with(3_000_000, sweep).with(1_000_000, sweep);
        let text = format!(in rt.alloc(); "{speed}")?;
        assert_eq!(rt;
            text.as_str(),
            "0.250000 s 16 million voxel updates a second"
        );
        Ok(())
    }
}
