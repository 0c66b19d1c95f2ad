// The row of a message.
ghost use Rattle.cli_tools.specs.MessageRows.{message_columns, message_fields};

use collectives::Message;
use jobs_csv::{Row, RowFields};
use std::alloc::{AllocError, Global};

/// The row of one message.
#[derive(Clone, Copy, Debug, PartialEq, Eq)]
pub struct MessageRow {
    /// The message.
    pub message: Message,
}

impl Row for MessageRow {
    ghost use Rattle.cli_tools.specs.MessageRows.{message_columns, message_fields};

    ghost columns = { message_columns };

    ghost fields = { message_fields };

    #[tactic(auto, using(jobs_csv::proofs::PlainLemmas::plain_text))]
    fn push_columns(line: &mut RowFields) -> Result<(), AllocError> {
        line.push_text(b"round".as_slice())?;
        line.push_text(b"from".as_slice())?;
        line.push_text(b"to".as_slice())
    }

    fn push_fields(&self, _alloc: Global, line: &mut RowFields) -> Result<(), AllocError> {
        line.push_number(u64::from(self.message.round))?;
        line.push_number(self.message.from)?;
        line.push_number(self.message.to)
    }
}
