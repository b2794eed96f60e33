// The calls as they are written: a word, and a figure where the call takes one.
use anyhow::anyhow;
use pile::Call;
use std::str::FromStr;

/// The call that a line asks for.
pub(crate) struct Asked(pub Call);

impl FromStr for Asked {
    type Err = anyhow::Error;

    fn from_str(line: &str) -> anyhow::Result<Asked> {
        let (name, figure) = match line.split_once(' ') {
            Some((name, figure)) => (name, figure.parse::<u64>()?),
            None => (line, 0),
        };
        // The word is a text that is read: no step is chosen here, and a table of functions would say no more.
        let call = match name {
            "trial" => Call::Trial(figure),
            "day" => Call::Day(figure),
            "quote" => Call::Quote,
            "limit" => Call::Limit(u8::try_from(figure)?),
            "days" => Call::Days,
            "lines" => Call::Lines,
            "line" => Call::Line(usize::try_from(figure)?),
            _ => return Err(anyhow!("no such call")),
        };
        Ok(Asked(call))
    }
}
