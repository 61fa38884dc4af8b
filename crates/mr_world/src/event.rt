//! What happens in a world.

use mr_mail::Message;

/// What a replica of a world does, or one of its ports. Requests, records and receipts are named by their
/// numbers in the world's pools, from 1.
pub type Act = mr_model::Act<Message>;

/// One event of a world: the replica that it is for, and what that does.
pub type Event = mr_model::Event<Message>;
