// What the program is asked to sweep.
use anyhow::{Context, Result};
use std::env::{Args, Env};
use std::{env, fmt};

const USAGE: &str = "usage: bench SIDE VIEWS COLUMNS ROWS [heights=N] [uneven] [timed]";

// How the edges of the voxels lie: one pitch apart, or closer together toward the middle.
#[derive(Clone, Copy, PartialEq, Eq, Debug)]
pub(crate) enum Grid {
    Even,
    Uneven,
}

#[derive(Clone, Copy)]
pub(crate) struct Arguments {
    // The cells of x and those of y.
    pub(crate) side: u16,
    pub(crate) heights: u16,
    pub(crate) views: u16,
    pub(crate) columns: u16,
    pub(crate) rows: u16,
    pub(crate) grid: Grid,
    // Whether the speed is to be told.
    pub(crate) timed: bool,
}

impl Arguments {
    pub(crate) fn read(rt: &(impl Env + AllocGlobal)) -> Result<Arguments> {
        let mut words = env::args(rt)?;
        // The first is the program's name.
        words.next();
        let side = next_number(&mut words)?;
        let mut arguments = Arguments {
            side,
            heights: side,
            views: next_number(&mut words)?,
            columns: next_number(&mut words)?,
            rows: next_number(&mut words)?,
            grid: Grid::Even,
            timed: false,
        };
        for word in words {
            arguments = arguments.with(word.as_str())?;
        }
        Ok(arguments)
    }

    // The arguments with an optional one.
    fn with(self, word: &str) -> Result<Arguments> {
        match word {
            "uneven" => Ok(Arguments {
                grid: Grid::Uneven,
                ..self
            }),
            "timed" => Ok(Arguments {
                timed: true,
                ..self
            }),
            _ => {
                let heights = word.strip_prefix("heights=").context(USAGE)?;
                Ok(Arguments {
                    heights: number(heights)?,
                    ..self
                })
            }
        }
    }
}

fn next_number(words: &mut Args) -> Result<u16> {
    number(words.next().context(USAGE)?.as_str())
}

fn number(word: &str) -> Result<u16> {
    word.parse().context(USAGE)
}

impl fmt::Display for Arguments {
    fn fmt<W: fmt::Write>(&self, f: &mut fmt::Formatter<W>) -> fmt::Result {
        let Arguments {
            side,
            heights,
            views,
            columns,
            rows,
            ..
        } = *self;
        let grid = match self.grid {
            Grid::Even => "even",
            Grid::Uneven => "uneven",
        };
        write!(
            f,
            "voxels {side} {side} {heights} {grid} panel {columns} {rows} views {views}"
        )
    }
}

#[cfg(test)]
mod tests {
    use super::*;
    use std::test::Fail;

    const ASKED: Arguments = Arguments {
        side: 8,
        heights: 8,
        views: 4,
        columns: 16,
        rows: 20,
        grid: Grid::Even,
        timed: false,
    };

    #[test]
    fn an_optional_argument_alters_its_own_alone(rt: HostRuntime) -> Result<(), Fail> {
        let uneven = ASKED.with("uneven")?;
        assert_eq!(rt;
            (uneven.grid, uneven.timed, uneven.heights),
            (Grid::Uneven, false, 8)
        );
        let timed = ASKED.with("timed")?;
        assert_eq!(rt;
            (timed.grid, timed.timed, timed.heights),
            (Grid::Even, true, 8)
        );
        let low = ASKED.with("heights=3")?;
        assert_eq!(rt; (low.grid, low.timed, low.heights), (Grid::Even, false, 3));
        assert!(rt; ASKED.with("height=3").is_err());
        Ok(())
    }

    #[test]
    fn arguments_print_as_the_c_program_prints_them(rt: HostRuntime) -> Result<(), Fail> {
        let text = format!(in rt.alloc(); "{}", ASKED.with("uneven")?)?;
        assert_eq!(rt; text.as_str(), "voxels 8 8 8 uneven panel 16 20 views 4");
        Ok(())
    }
}
