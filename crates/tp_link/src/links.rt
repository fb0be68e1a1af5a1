ghost use Rattle.std.specs.Prelude.{◌≡◌};
ghost use Rattle.tp_link.specs.Device.{after_close};

use crate::device::{DeviceFault, LinkDevice};
use std::fmt;
use thiserror::Error;

/// One of a member's three devices.
#[derive(Clone, Copy, Debug, PartialEq, Eq)]
pub enum Link {
    /// The one that its packets come from.
    Source,
    /// The one that its results go to.
    Sink,
    /// The one that its trace messages go to.
    Trace,
}

impl fmt::Display for Link {
    ghost use Rattle.std.specs.Prelude.{Some};
    ghost use Rattle.tp_link.specs.Links.{link_text};

    ghost output = { λ link. Some (link_text link) };

    fn fmt<W: fmt::Write>(&self, f: &mut fmt::Formatter<W>) -> fmt::Result {
        f.write_str(match self {
            Link::Source => "source",
            Link::Sink => "sink",
            Link::Trace => "trace",
        })
    }
}

/// A refusal by one of a member's devices.
#[derive(Clone, Copy, Debug, PartialEq, Eq, Error)]
#[error("{code} at {link}")]
pub struct LinkFault {
    /// Which device refused: the fault's place.
    pub link: Link,
    /// Why it refused.
    pub code: DeviceFault,
}

/// The three devices of one member.
///
/// `D` is `Box<Wire<'_>>`, `Box<FaultyWire<'_>>` or `Box<dyn LinkDevice + Send>`, or any other
/// device.
#[derive(Drop)]
pub struct Links<D> {
    pub source: D,
    pub sink: D,
    pub trace: D,
}

impl<D: LinkDevice> Links<D> {
    /// Closes all three.
    pub fn shut(&mut self)
        ensures source { D.state self.new.source ≡ after_close (D.state self.old.source) }
        ensures sink { D.state self.new.sink ≡ after_close (D.state self.old.sink) }
        ensures trace { D.state self.new.trace ≡ after_close (D.state self.old.trace) }
    {
        self.source.close();
        self.sink.close();
        self.trace.close();
    }
}
