//! The headers of frames.
ghost use Rattle.std.specs.Prelude.{◌≡◌, true, Ok};
ghost use Rattle.peer_frames.specs.Reading.{Reads, header_at};

use crate::cursor::Cursor;
use crate::kind::Kind;
use crate::malformed::Malformed;
use crate::version::Version;
use ballot::NodeId;

/// What comes before the fields of a message.
#[derive(Clone, Copy)]
pub(crate) struct Header {
    pub(crate) version: Version,
    pub(crate) kind: Kind,
    pub(crate) from: NodeId,
    pub(crate) to: NodeId,
}

impl<'a> Cursor<'a> {
    #[tactic(auto, unfolding(crate::specs::Reading::header_at))]
    pub(crate) fn read_header(&mut self) -> Result<Header, Malformed>
        ensures { Reads result self.new (header_at self.old) }
    {
        let version = Version::of(self.read_byte()?).ok_or(Malformed::Version)?;
        let kind = Kind::of(self.read_byte()?).ok_or(Malformed::Kind)?;
        let from = self.read_node()?;
        let to = self.read_node()?;
        Ok(Header {
            version,
            kind,
            from,
            to,
        })
    }
}
