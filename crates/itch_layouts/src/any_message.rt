//! What can be asked of any message.
ghost use Rattle.std.specs.Prelude.{◌≡◌, ◌==◌, ◌++◌};
ghost use Rattle.std.specs.List.{list_any};
ghost use Rattle.std.specs.Option.{option_to_list};
ghost use Rattle.itch_layouts.specs.Means.{fields_of};
ghost use Rattle.itch_layouts.specs.References.{references};

use crate::message::{Head, Msg};

impl Msg {
    /// The message's head.
    pub fn head(&self) -> Head
        ensures { result ≡ (fields_of self.now).head }
    {
        match *self {
            Msg::System(head, _)
            | Msg::Directory(head, _)
            | Msg::Trading(head, _)
            | Msg::Regsho(head, _)
            | Msg::Participant(head, _)
            | Msg::Decline(head, _)
            | Msg::Breach(head, _)
            | Msg::Ipo(head, _)
            | Msg::Collar(head, _)
            | Msg::Operational(head, _)
            | Msg::Add(head, _)
            | Msg::AddMpid(head, _)
            | Msg::Execute(head, _)
            | Msg::ExecutePrice(head, _)
            | Msg::Cancel(head, _)
            | Msg::Delete(head, _)
            | Msg::Replace(head, _)
            | Msg::Trade(head, _)
            | Msg::Cross(head, _)
            | Msg::Broken(head, _)
            | Msg::Imbalance(head, _)
            | Msg::Retail(head, _) => head,
        }
    }

    /// The references by which the message names orders, of its fields `reference` and `new_reference`: two of a
    /// replacement, one of another message about an order.
    ///
    /// Nasdaq TotalView-ITCH 5.0, "Message Formats".
    pub fn references(&self) -> (Option<u64>, Option<u64>)
        ensures { option_to_list result.0 ++ option_to_list result.1 ≡ references self.now }
    {
        match *self {
            Msg::Add(_, message) => (Some(message.reference), None),
            Msg::AddMpid(_, message) => (Some(message.reference), None),
            Msg::Execute(_, message) => (Some(message.reference), None),
            Msg::ExecutePrice(_, message) => (Some(message.reference), None),
            Msg::Cancel(_, message) => (Some(message.reference), None),
            Msg::Delete(_, message) => (Some(message.reference), None),
            Msg::Replace(_, message) => (Some(message.reference), Some(message.new_reference)),
            Msg::Trade(_, message) => (Some(message.reference), None),
            Msg::System(_, _) => (None, None),
            Msg::Directory(_, _) => (None, None),
            Msg::Trading(_, _) => (None, None),
            Msg::Regsho(_, _) => (None, None),
            Msg::Participant(_, _) => (None, None),
            Msg::Decline(_, _) => (None, None),
            Msg::Breach(_, _) => (None, None),
            Msg::Ipo(_, _) => (None, None),
            Msg::Collar(_, _) => (None, None),
            Msg::Operational(_, _) => (None, None),
            Msg::Cross(_, _) => (None, None),
            Msg::Broken(_, _) => (None, None),
            Msg::Imbalance(_, _) => (None, None),
            Msg::Retail(_, _) => (None, None),
        }
    }

    /// Whether the message names an order by this reference, in its field `reference` or `new_reference`.
    pub fn has_reference(&self, reference: u64) -> bool
        ensures { result ≡ list_any (λ r. r == reference) (references self.now) }
    {
        let (one, other) = self.references();
        one == Some(reference) || other == Some(reference)
    }
}
