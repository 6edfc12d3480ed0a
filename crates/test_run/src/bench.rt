//! What a run is handed, and what it has left.

use anyhow::{Result, bail};
use disk_api::{Disk, MemoryDisk};
use krill_top::{
    Ends, ListClock, MemorySink, MemorySource, RunEnd, RunFault, SessionEnds, fault_text, run_krill,
};
use outlet_api::MemoryOutlet;
use sha2::{Digest, Sha256};
use signer_api::{MemorySigner, Rehearsal, Signer};
use std::alloc::Global;
use std::sync::Wait;
use std::thread::Threads;

type Session = SessionEnds<MemorySource, MemorySink, ListClock>;

type End<G> = RunEnd<MemoryDisk, G, MemorySource, MemorySink, MemoryOutlet, ListClock>;

/// The ends of the runs to come, and what is told of those that were.
#[derive(Drop)]
pub struct Bench {
    words: Vec<String>,
    disks: Vec<MemoryDisk>,
    press: MemoryDisk,
    rehearsals: Vec<Rehearsal>,
    memory_signers: Vec<MemorySigner>,
    outlet: MemoryOutlet,
    random: [u8; 32],
    clock: Vec<u64>,
    sessions: u32,
    /// The inputs of the first sessions, and that of the next one and of all behind it.
    earlier: Vec<Vec<u8>>,
    input: Vec<u8>,
    piece: usize,
    source_fails: Vec<u64>,
    sink_fails: Vec<u64>,
    replies: Vec<u8>,
    told: String,
}

impl Bench {
    /// Nothing but one session of whole pieces, and one signer.
    pub fn new(alloc: Global) -> Result<Bench> {
        let mut bench = Bench {
            words: Vec::new(alloc),
            disks: Vec::new(alloc),
            press: MemoryDisk::new(alloc, Vec::new(alloc), Vec::new(alloc)),
            rehearsals: Vec::new(alloc),
            memory_signers: Vec::new(alloc),
            outlet: MemoryOutlet::new(alloc, Vec::new(alloc)),
            random: [0; 32],
            clock: Vec::new(alloc),
            sessions: 1,
            earlier: Vec::new(alloc),
            input: Vec::new(alloc),
            piece: usize::MAX,
            source_fails: Vec::new(alloc),
            sink_fails: Vec::new(alloc),
            replies: Vec::new(alloc),
            told: String::new(alloc),
        };
        bench.add_rehearsal([0; 32])?;
        Ok(bench)
    }

    pub fn told(&self) -> &str {
        self.told.as_str()
    }

    /// Adds the word to those of the command line.
    pub fn add_word(&mut self, alloc: Global, word: &str) -> Result<()> {
        self.words.push(String::from_str(alloc, word)?)?;
        Ok(())
    }

    /// Hands in so many sessions from now on.
    pub fn set_sessions(&mut self, count: u32) {
        self.sessions = count;
    }

    /// Adds a disk of these bytes, which fails at these of its calls.
    pub fn add_disk(&mut self, alloc: Global, bytes: Vec<u8>, fails: Vec<u64>) -> Result<()> {
        self.disks.push(MemoryDisk::new(alloc, bytes, fails))?;
        Ok(())
    }

    /// A press's disk of these bytes, which fails at these of its calls.
    pub fn set_press(&mut self, alloc: Global, bytes: Vec<u8>, fails: Vec<u64>) {
        self.press = MemoryDisk::new(alloc, bytes, fails);
    }

    /// The press's disk takes so many calls, and fails from then on.
    pub fn stop_press(&mut self, calls: u64) {
        self.press.stop_after(calls);
    }

    /// A disk with an image that a crash may leave of the press's, in its place.
    pub fn keep_press_image(&mut self, alloc: Global, pick: u64) -> Result<()> {
        let image = self.press.image(alloc, pick)?;
        self.set_press(alloc, image, Vec::new(alloc));
        Ok(())
    }

    /// A press's disk with another byte so many bytes before the end, in its place.
    pub fn flip_press(&mut self, alloc: Global, before_end: usize) -> Result<()> {
        let mut bytes = self.press.bytes().to_vec(alloc)?;
        let Some(at) = bytes.len().checked_sub(before_end) else {
            bail!("no byte of the press's disk");
        };
        let Some(byte) = bytes.as_mut_slice().get_mut(at) else {
            bail!("no byte of the press's disk");
        };
        *byte ^= 1;
        self.set_press(alloc, bytes, Vec::new(alloc));
        Ok(())
    }

    /// A press's disk with these bytes in the place of the last one, which closes its journal.
    pub fn extend_press(&mut self, alloc: Global, more: &[u8]) -> Result<()> {
        let mut bytes = self.press.bytes().to_vec(alloc)?;
        if bytes.pop().is_none() {
            bail!("no byte of the press's disk");
        }
        bytes.extend_from_slice(more)?;
        self.set_press(alloc, bytes, Vec::new(alloc));
        Ok(())
    }

    /// An empty disk in the place of the desk's of that number.
    pub fn lose_desk(&mut self, alloc: Global, number: usize) -> Result<()> {
        let Some(disk) = self.disks.as_mut_slice().get_mut(number) else {
            bail!("no such disk");
        };
        *disk = MemoryDisk::new(alloc, Vec::new(alloc), Vec::new(alloc));
        Ok(())
    }

    /// Takes all words away.
    pub fn clear_words(&mut self) {
        self.words.clear();
    }

    /// Takes all signers away.
    pub fn clear_signers(&mut self) {
        self.rehearsals.clear();
        self.memory_signers.clear();
    }

    /// Adds a rehearsal signer with that start.
    pub fn add_rehearsal(&mut self, start: [u8; 32]) -> Result<()> {
        Ok(self.rehearsals.push(Rehearsal::new(start))?)
    }

    /// Adds a signer in memory that fails at these of its calls.
    pub fn add_memory_signer(
        &mut self,
        alloc: Global,
        start: [u8; 32],
        fails: Vec<u64>,
    ) -> Result<()> {
        let signer = MemorySigner::new(alloc, start, fails);
        Ok(self.memory_signers.push(signer)?)
    }

    /// An empty outlet that fails at these of its calls.
    pub fn set_outlet(&mut self, alloc: Global, fails: Vec<u64>) {
        self.outlet = MemoryOutlet::new(alloc, fails);
    }

    /// The session of RRDP files is drawn from this.
    pub fn set_random(&mut self, random: [u8; 32]) {
        self.random = random;
    }

    /// The clocks give these moments from now on, and then the last one again and again.
    pub fn set_clock(&mut self, moments: Vec<u64>) {
        self.clock = moments;
    }

    /// The first disk takes so many calls, and fails from then on.
    pub fn stop_first(&mut self, calls: u64) -> Result<()> {
        match self.disks.as_mut_slice() {
            [first, ..] => first.stop_after(calls),
            [] => bail!("no disk"),
        }
        Ok(())
    }

    /// A disk with an image that a crash may leave of the first one, in place of all disks.
    pub fn keep_image(&mut self, alloc: Global, pick: u64) -> Result<()> {
        let [first, ..] = self.disks.as_slice() else {
            bail!("no disk");
        };
        let image = first.image(alloc, pick)?;
        self.disks.clear();
        self.add_disk(alloc, image, Vec::new(alloc))
    }

    /// The sources fail at these of their calls.
    pub fn set_source_fails(&mut self, fails: Vec<u64>) {
        self.source_fails = fails;
    }

    /// The sinks fail at these of their calls.
    pub fn set_sink_fails(&mut self, fails: Vec<u64>) {
        self.sink_fails = fails;
    }

    /// The sources give at most so many bytes at a time, and the sinks take as many.
    pub fn set_piece(&mut self, len: usize) {
        self.piece = len;
    }

    /// Adds these bytes to what the next run reads.
    pub fn add_input(&mut self, bytes: &[u8]) -> Result<()> {
        Ok(self.input.extend_from_slice(bytes)?)
    }

    /// What is added from now on is the input of the next session, and of those behind it.
    pub fn begin_input(&mut self, alloc: Global) -> Result<()> {
        let input = std::mem::replace(&mut self.input, Vec::new(alloc));
        Ok(self.earlier.push(input)?)
    }

    /// The input of the session of that number, from 0 on.
    fn input_of(&self, number: usize) -> &[u8] {
        match self.earlier.as_slice().get(number) {
            Some(input) => input.as_slice(),
            None => self.input.as_slice(),
        }
    }

    /// The ends of a session over this input.
    fn session(&self, alloc: Global, input: &[u8]) -> Result<Session> {
        if self.piece == 0 {
            bail!("pieces without a byte");
        }
        let input = input.to_vec(alloc)?;
        let source_fails = self.source_fails.as_slice().to_vec(alloc)?;
        let sink_fails = self.sink_fails.as_slice().to_vec(alloc)?;
        Ok(SessionEnds {
            source: MemorySource::in_pieces(input, source_fails, self.piece),
            sink: MemorySink::in_pieces(alloc, sink_fails, self.piece),
            clock: ListClock::new(self.clock.as_slice().to_vec(alloc)?),
        })
    }

    /// The sessions that are handed in.
    fn all_sessions(&self, alloc: Global) -> Result<Vec<Session>> {
        let mut sessions = Vec::new(alloc);
        for number in 0..self.sessions as usize {
            sessions.push(self.session(alloc, self.input_of(number))?)?;
        }
        Ok(sessions)
    }

    /// Runs with the signers, all of one kind, and keeps the disks and the signers as they are left. The
    /// input is used up.
    pub fn run<R: Threads + Wait + Sync>(&mut self, rt: &R, alloc: Global) -> Result<()> {
        if self.memory_signers.is_empty() {
            let signers = std::mem::replace(&mut self.rehearsals, Vec::new(alloc));
            self.rehearsals = self.run_with(rt, alloc, signers)?;
        } else if self.rehearsals.is_empty() {
            let signers = std::mem::replace(&mut self.memory_signers, Vec::new(alloc));
            self.memory_signers = self.run_with(rt, alloc, signers)?;
        } else {
            bail!("signers of two kinds");
        }
        Ok(())
    }

    fn run_with<G: Signer + Send, R: Threads + Wait + Sync>(
        &mut self,
        rt: &R,
        alloc: Global,
        signers: Vec<G>,
    ) -> Result<Vec<G>> {
        let sessions = self.all_sessions(alloc)?;
        self.earlier.clear();
        self.input.clear();
        let disks = std::mem::replace(&mut self.disks, Vec::new(alloc));
        let outlet = std::mem::replace(&mut self.outlet, MemoryOutlet::new(alloc, Vec::new(alloc)));
        let empty = MemoryDisk::new(alloc, Vec::new(alloc), Vec::new(alloc));
        let press = std::mem::replace(&mut self.press, empty);
        let end = run_krill(
            rt,
            alloc,
            self.words.as_slice(),
            self.random,
            disks,
            press,
            signers,
            outlet,
            sessions,
        );
        self.keep(alloc, end)
    }

    // Tells the status and the fault's text, keeps the replies of all sessions, the disks and the outlet, and
    // hands back the signers.
    fn keep<G: Signer>(&mut self, alloc: Global, end: End<G>) -> Result<Vec<G>> {
        let RunEnd {
            status,
            fault,
            ends,
            sessions,
            kept: _kept,
        } = end;
        let Ends {
            desks,
            press,
            signers,
            outlet,
        } = ends;
        self.disks = desks;
        self.press = press;
        self.outlet = outlet;
        self.replies.clear();
        for ends in sessions.as_slice() {
            self.replies.extend_from_slice(ends.sink.bytes())?;
        }
        write!(self.told, "\t{status}")?;
        if let Some(fault) = fault {
            self.tell_fault(alloc, fault)?;
        }
        Ok(signers)
    }

    /// Tells the fault's text.
    pub fn tell_fault(&mut self, alloc: Global, fault: RunFault) -> Result<()> {
        let text = fault_text(alloc, &fault)?;
        write!(self.told, " {text}")?;
        Ok(())
    }

    /// Tells the replies to the last run's lines, with `␊` for each line feed.
    pub fn tell_replies(&mut self, alloc: Global) -> Result<()> {
        let text = self.reply_text(alloc)?;
        write!(self.told, "\t{text}")?;
        Ok(())
    }

    /// Tells whether those replies are one of the texts, which have `|` between them.
    pub fn tell_whether_replies(&mut self, alloc: Global, texts: &str) -> Result<()> {
        let replies = self.reply_text(alloc)?;
        let is_one = texts.split('|').any(|text| text == replies.as_str());
        write!(self.told, "\t{is_one}")?;
        Ok(())
    }

    fn reply_text(&self, alloc: Global) -> Result<String> {
        match str::from_utf8(self.replies.as_slice()) {
            Ok(text) => Ok(text.replace(alloc, "\n", "␊")?),
            Err(_) => bail!("replies that are no text"),
        }
    }

    /// Tells how many bytes the outlet's file at that path has, and their SHA-256, or that there is none.
    pub fn tell_file(&mut self, alloc: Global, path: &str) -> Result<()> {
        let Some(bytes) = self.outlet.file(path) else {
            write!(self.told, "\tnone")?;
            return Ok(());
        };
        let hash = hex::encode(alloc, Sha256::digest(bytes))?;
        write!(self.told, "\t{} {hash}", bytes.len())?;
        Ok(())
    }

    /// Tells how many bytes the press's disk has, their SHA-256, and how often it has failed.
    pub fn tell_press(&mut self, alloc: Global) -> Result<()> {
        let (bytes, faults) = (self.press.bytes(), self.press.faults());
        let hash = hex::encode(alloc, Sha256::digest(bytes))?;
        write!(self.told, "\t{} {hash} {faults}", bytes.len())?;
        Ok(())
    }

    /// Tells how many disks there are, the first one's faults and bytes, and how many of the others have
    /// the bytes that the last of them has.
    pub fn tell_disks(&mut self, alloc: Global) -> Result<()> {
        let [first, .., last] = self.disks.as_slice() else {
            bail!("no two disks");
        };
        let (count, faults) = (self.disks.len(), first.faults());
        let (first, last) = (first.bytes(), last.bytes());
        let like_last = self
            .disks
            .iter()
            .filter(|disk| disk.bytes() == last)
            .count();
        let (first, last) = (hex::encode(alloc, first)?, hex::encode(alloc, last)?);
        write!(self.told, "\t{count} {faults} {first} {like_last} {last}")?;
        Ok(())
    }
}
