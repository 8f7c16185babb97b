//! Replies with their statuses, and those that every command may give.

ghost use Rattle.std.specs.Prelude.{◌≡◌, IfOk, Some};
ghost use Rattle.planner_core.specs.Replies.{role_word, usage, read_fault, too_long};

use crate::status::Status;
use exact_lin::NoMemory;
use std::alloc::Global;
use std::fmt;
use std::marker::Model;

/// What a file is to hold.
#[derive(Clone, Copy, Debug, PartialEq, Eq)]
pub enum Role {
    Domain,
    Problem,
    Plan,
}

impl Role {
    /// The word for the file.
    pub fn word(self) -> &'static str
        ensures { result.now ≡ role_word self }
    {
        match self {
            Role::Domain => "domain",
            Role::Problem => "problem",
            Role::Plan => "plan",
        }
    }
}

impl fmt::Display for Role {
    ghost output = { λ role. Some (role_word role) };

    fn fmt<W: fmt::Write>(&self, f: &mut fmt::Formatter<W>) -> fmt::Result {
        f.write_str(self.word())
    }
}

/// A whole reply, with the status that the program ends with once it is written.
#[derive(Drop)]
pub struct Reply {
    status: Status,
    text: Vec<u8>,
}

impl Model for Reply {
    ghost use Rattle.planner_core.specs.Replies.{Said};

    ghost Value = { Said };

    ghost view = { λ reply. record { status = reply.status; text = reply.text.items } };
}

impl Reply {
    pub fn new(status: Status, text: Vec<u8>) -> Reply
        ensures { result ≡ record { status = status; text = text.items } }
    {
        Reply { status, text }
    }

    pub fn status(&self) -> Status
        ensures { result ≡ self.now.status }
    {
        self.status
    }

    /// The text, each line ended by a line feed.
    pub fn text(&self) -> &[u8]
        ensures { result.now ≡ self.now.text }
    {
        &self.text
    }
}

/// The reply to words that are no command's.
pub fn usage_reply(alloc: Global) -> Result<Reply, NoMemory>
    ensures { IfOk result (λ reply. reply ≡ usage) }
{
    let text = b"usage: fluxplan validate or schedule or plan or check or demo\n";
    Ok(Reply::new(Status::Usage, Vec::from_slice(alloc, text)?))
}

/// The text of the reply to a fetch that failed.
pub fn read_fault_text(alloc: Global, name: &str) -> Result<Vec<u8>, NoMemory>
    ensures { IfOk result (λ text. text.items ≡ (read_fault name.now).text) }
{
    Ok(format!(in alloc; "read fault {name}\n")?.into_bytes())
}

/// The reply to a file that is too long; `count` bytes of it were taken.
pub fn too_long_reply(alloc: Global, role: Role, count: u64) -> Result<Reply, NoMemory>
    ensures { IfOk result (λ reply. reply ≡ too_long role count) }
{
    let text = format!(in alloc; "refused {role} Long {count}\n")?;
    Ok(Reply::new(Status::Refused, text.into_bytes()))
}
