//! The channels of a worker.

ghost use Rattle.std.specs.Prelude.{◌≡◌, Some, IfOk, map};
ghost use Rattle.tpw_occam_meaning.specs.Messages as messages;
ghost use Rattle.tpw_occam_meaning.specs.Names.{Packet, Output, found};
ghost use Rattle.tpw_occam_meaning.specs.Texts as text;
ghost use Rattle.tpw_occam_names.specs.Scopes.{names_of, form_of, protocol_of};
ghost use Rattle.tpw_occam_workers.specs.Behind.{places_of};

use tpw_occam_names::{Channel, Fault, Form, Meaning, Protocol, Scope, look_up};
use tpw_occam_terms::Name;

/// The protocols of a worker's channels.
#[derive(Clone, Copy)]
pub(crate) struct Channels {
    pub(crate) packet: Protocol,
    pub(crate) output: Protocol,
    pub(crate) traces: Option<Protocol>,
}

/// The channels of a worker: the packet's, the result's, and the traces' where there is one.
pub(crate) fn channels_of(forms: &[Form]) -> Result<Channels, Fault>
    ensures { IfOk result (λ c. text.channels (map form_of forms.now) ≡ Some (places_of c)) }
{
    match forms {
        [Form::OfChannel(packet), Form::OfChannel(output)] => Ok(Channels {
            packet: *packet,
            output: *output,
            traces: None,
        }),
        [
            Form::OfChannel(packet),
            Form::OfChannel(output),
            Form::OfChannel(traces),
        ] => {
            Ok(Channels {
                packet: *packet,
                output: *output,
                traces: Some(*traces),
            })
        }
        _ => Err(Fault::Wrong),
    }
}

/// The protocol of the packet's channel, where a name is that.
pub(crate) fn packet(scope: &Scope<'_, '_, '_>, name: Name<'_>) -> Result<Protocol, Fault>
    ensures { IfOk result (λ p.
        messages.carried Packet (found name.entry (names_of scope.now)) ≡ Some (protocol_of p)) }
{
    match look_up(scope, name) {
        Some((Meaning::Carrier(Channel::Packet, protocol), _)) => Ok(protocol),
        _ => Err(Fault::Wrong),
    }
}

/// The protocol of the result's channel, where a name is that.
pub(crate) fn output(scope: &Scope<'_, '_, '_>, name: Name<'_>) -> Result<Protocol, Fault>
    ensures { IfOk result (λ p.
        messages.carried Output (found name.entry (names_of scope.now)) ≡ Some (protocol_of p)) }
{
    match look_up(scope, name) {
        Some((Meaning::Carrier(Channel::Output, protocol), _)) => Ok(protocol),
        _ => Err(Fault::Wrong),
    }
}
