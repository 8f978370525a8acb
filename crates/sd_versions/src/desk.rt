//! The machine of one thread.

ghost use Rattle.std.specs.Prelude.{◌≡◌, ◌≢◌, ◌<◌, None, IfOk, IfErr, length};
ghost use Rattle.sd_edit.specs.Journal.{opening_of, opening_within, root_refusal, IsLawful};
ghost use Rattle.sd_edit.specs.Machine.{Steps, Runs, started, accepted, with_look};
ghost use Rattle.sd_edit.specs.Starts.{IsReaderCount, IsStartError};

use crate::Versions;
use sd_check::Token;
use sd_edit::{Answer, MAX_READERS, Reply, Request, StartError};
use sd_sid::{GenericMapping, Mask};
use sd_tree::{Edit, Journal, Limits, Path, RootSpec, Shared, Tree, TreeError};
use std::alloc::{AllocError, Global};
use std::marker::Model;

/// A store of security descriptors for one thread, with numbered readers: edits are pending until a publish. Contracts
/// see the machine: the opening, the edits that are published, those that are pending, and for each reader the journal
/// that it has seen.
#[derive(Drop)]
pub struct Desk {
    alloc: Global,
    /// The tree that readers see, and the one that takes the edits.
    tree: Versions,
    /// For each reader, the length of the journal that it has seen.
    floors: Vec<u64>,
}

impl Model for Desk {
    ghost use Rattle.sd_edit.specs.Machine.{Machine};

    ghost Value = { Machine };

    ghost use Rattle.sd_versions.specs.Desk.{machine_of, AreWithin};

    ghost view = { λ d. machine_of d.tree d.floors.items };

    ghost invariant = { λ d. AreWithin d.tree.published d.floors.items };
}

impl Desk {
    /// A store with no edit yet, and 1 to 64 readers that have seen none: `Readers` for another number, and else the
    /// root's first refusal.
    pub fn start(
        alloc: Global,
        mapping: &GenericMapping,
        root: &RootSpec,
        readers: u64,
    ) -> Result<Desk, StartError>
        ensures started { IfOk result (λ desk. desk ≡ started (opening_of mapping.now root.now) readers) }
        ensures accepted { IfOk result (λ _. IsReaderCount readers ×
            (root_refusal (opening_of mapping.now root.now) ≡ None)) }
        ensures refused { IfErr result (λ e. IsStartError e readers (root_refusal (opening_of mapping.now root.now))) }
    {
        Desk::start_within(alloc, mapping, root, Limits::standard(), readers)
    }

    /// A store with no edit yet whose tree keeps these limits, and 1 to 64 readers that have seen none: `Readers` for
    /// another number, and else the root's first refusal.
    pub fn start_within(
        alloc: Global,
        mapping: &GenericMapping,
        root: &RootSpec,
        limits: Limits,
        readers: u64,
    ) -> Result<Desk, StartError>
        ensures started { IfOk result
            (λ desk. desk ≡ started (opening_within mapping.now root.now limits) readers) }
        ensures accepted { IfOk result (λ _. IsReaderCount readers ×
            (root_refusal (opening_within mapping.now root.now limits) ≡ None)) }
        ensures refused { IfErr result
            (λ e. IsStartError e readers (root_refusal (opening_within mapping.now root.now limits))) }
    {
        if readers < 1 || MAX_READERS < readers {
            return Err(StartError::Readers);
        }
        Ok(Desk {
            alloc,
            tree: Versions::opening(alloc, mapping, root, limits)?,
            floors: vec![in alloc; 0; readers as usize]?,
        })
    }

    /// One request. `Memory` is replied only to an edit that isn't due a refusal which is found without memory, and to
    /// a show, for a reader that is there, of a node that is there; nothing changed then.
    pub fn step(&mut self, request: &Request) -> Reply
        ensures step { Steps self.old request.now result self.new }
        ensures publish { request.now ≡ Request.Publish → result ≢ Reply.Memory }
    {
        match request {
            Request::Edit(edit) => self.edit(edit),
            Request::Publish => self.publish(),
            Request::Tell => self.tell(),
            Request::Learn { reader, length } => self.learn(*reader, *length),
            Request::Check {
                reader,
                path,
                token,
                asked,
            } => self.check(*reader, path, token, *asked),
            Request::Show { reader, path } => self.show(*reader, path),
        }
    }

    /// The requests, one after the other, each with its reply. The room for all replies is made first: after an
    /// `AllocError` nothing was done.
    pub fn run(&mut self, requests: &[Request]) -> Result<Vec<Reply>, AllocError>
        ensures done { IfOk result (λ replies. Runs self.old requests.now replies.items self.new) }
        ensures refused { IfErr result (λ _. self.new ≡ self.old) }
    {
        let mut replies = Vec::with_capacity(self.alloc, requests.len())?;
        for request in requests {
            replies.push_reserved(self.step(request));
        }
        Ok(replies)
    }

    /// The tree that readers see.
    pub fn published(&self) -> &Tree
        ensures opening { result.now.opening ≡ self.now.opening }
        ensures journal { result.now.journal ≡ self.now.published }
    {
        self.tree.published()
    }

    /// The tree that readers see, for one holder more, which stays as it is. `AllocError` only where its count of
    /// holders is full.
    pub fn snapshot(&self) -> Result<Shared<Tree>, AllocError>
        ensures opening { IfOk result (λ tree. tree.opening ≡ self.now.opening) }
        ensures journal { IfOk result (λ tree. tree.journal ≡ self.now.published) }
    {
        self.tree.snapshot()
    }

    /// The tree with all edits that were accepted: those that are seen, and then those that are pending.
    pub fn draft(&self) -> &Tree
        ensures opening { result.now.opening ≡ self.now.opening }
        ensures journal { result.now.journal ≡ accepted self.now }
    {
        self.tree.draft()
    }

    /// How many readers there are.
    pub fn readers(&self) -> u64
        ensures { result ≡ length self.now.floors }
    {
        self.floors.len() as u64
    }

    /// The edits that are seen, in their order.
    pub fn journal(&self) -> Journal<'_>
        ensures journal { result ≡ self.now.published }
        ensures lawful { IsLawful self.now.opening (accepted self.now) }
    {
        // The draft has all edits that were accepted, each at a place where nothing refuses it.
        let _ = self.tree.draft().len();
        self.tree.published().journal()
    }

    /// The edit becomes pending, unless it is refused.
    fn edit(&mut self, edit: &Edit) -> Reply
        ensures { Steps self.old (Request.Edit edit.now) result self.new }
    {
        match self.tree.edit(edit) {
            Ok(()) => Reply::Edited,
            Err(TreeError::Refused(refusal)) => Reply::Refused(refusal),
            Err(TreeError::Memory) => Reply::Memory,
        }
    }

    /// The pending edits are seen. Takes no memory.
    fn publish(&mut self) -> Reply
        ensures step { Steps self.old Request.Publish result self.new }
        ensures publish { result ≢ Reply.Memory }
    {
        self.tree.publish();
        Reply::Published(self.tree.published().len())
    }

    /// How long the published journal is.
    fn tell(&self) -> Reply
        ensures { Steps self.now Request.Tell result self.now }
    {
        Reply::Told(self.tree.published().len())
    }

    /// The reader's floor becomes the longer of itself and the first edits that it learns of.
    fn learn(&mut self, reader: u64, length: u64) -> Reply
        ensures { Steps self.old (Request.Learn reader length) result self.new }
    {
        if reader >= self.floors.len() as u64 {
            return Reply::NoReader;
        }
        if length > self.tree.published().len() {
            return Reply::NoNotice;
        }
        let floor = self.floors[reader as usize].max(length);
        self.floors[reader as usize] = floor;
        Reply::Learned(floor)
    }

    /// The reader's check, by the published tree. Takes no memory.
    fn check(&mut self, reader: u64, path: &Path, token: &Token, asked: Mask) -> Reply
        ensures { Steps self.old (Request.Check reader path.now token.now asked) result self.new }
    {
        if reader >= self.readers() {
            return Reply::NoReader;
        }
        let reply = self.published().check(path, token, asked);
        let seen = self.look(reader);
        Reply::Answered(Answer { seen, reply })
    }

    /// The descriptor that the reader asks for, by the published tree.
    fn show(&mut self, reader: u64, path: &Path) -> Reply
        ensures { Steps self.old (Request.Show reader path.now) result self.new }
    {
        if reader >= self.readers() {
            return Reply::NoReader;
        }
        let Ok(descriptor) = self.published().descriptor(path) else {
            return Reply::Memory;
        };
        let seen = self.look(reader);
        Reply::Shown { seen, descriptor }
    }

    /// The reader has seen the published journal, whose length is returned.
    fn look(&mut self, reader: u64) -> u64
        requires { reader < length self.old.floors }
        ensures seen { result ≡ length self.old.published }
        ensures floor { self.new ≡ with_look self.old reader }
    {
        let seen = self.tree.published().len();
        self.floors[reader as usize] = seen;
        seen
    }
}
