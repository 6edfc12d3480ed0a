// A signer over two streams.
ghost use Rattle.std.specs.Prelude.{◌≡◌, ℕ, List, Bool, Some, None, IsSome, IfSome};
ghost use Rattle.signer_line.specs.Answers.{heard_of};
ghost use Rattle.signer_line.specs.Answers.Answered.{Key, Signature as SignatureAnswer, Once, Checked, Dropped};
ghost use Rattle.signer_api.specs.State.{SignerState, next_count};
ghost use Rattle.signer_api.specs.State.Vouching.{NotTold};

use crate::answer::{Answer, read_answer};
use crate::calls::{HandsOn, send};
use crate::inbox::{Inbox, Stop};
use crate::line::receive;
use crate::meeting::{greeting_lines, hello_line, hello_text, pass_to};
use crate::opening::{Unmet, pass_to_answer};
use crate::request::{Request, line_of};
use host_calls::raised;
use line_loop::{HostReader, HostWriter, RawReader};
use signer_api::{Digest, OneUse, PublicKey, Signature, Signer, SignerStop};
use std::alloc::Global;
use std::io::{Read, Write};

/// A signer at the other end of two streams. Each call writes one line and reads one line.
///
/// Any other line than the call's answer is a fault, and so are the end of the stream and an error.
/// Before its first request and after each fault it meets the other end: it sends `hello` and a word
/// of 16 bytes, and passes over what comes, up to the line that says it again. So no answer to an
/// earlier request, whoever made it, is taken for one to a later request.
///
/// It tells nothing of vouching or keys. No call takes memory. It reads in blocks and writes each
/// line whole, so both streams are best handed in bare.
#[derive(Drop)]
pub struct SignerOver<R, W> {
    from: Inbox<R>,
    to: W,
    in_step: bool,
    number: u128,
    signatures: u64,
    once: u64,
    faults: u64,
}

// What came is no answer, or nothing came.
#[derive(Drop)]
struct Unanswered;

/// A signer over a reader and a writer of std. It is known what they hold where they tell.
pub type LineSigner<R, W> = SignerOver<HostReader<R>, HostWriter<W>>;

impl<R: Read + Drop, W: Write + Drop> SignerOver<HostReader<R>, HostWriter<W>> {
    ghost use Rattle.std.specs.Prelude.{◌≡◌, false, None};
    ghost use Rattle.line_loop.specs.Streams.{host_reader, host_writer};
    ghost use Rattle.signer_line.specs.Streams.{line_state, line_from, line_to, in_step, number_of};
    ghost use Rattle.signer_api.specs.State.{SignerState};
    ghost use Rattle.signer_api.specs.State.Vouching.{NotTold};

    /// A signer that has not failed, and that the other end hasn't met. The words of its meetings are
    /// counted from this one on, which is best drawn at random.
    pub fn new(from: R, to: W, first_word: u128) -> Self
        ensures from { host_reader (line_from result) ≡ from }
        ensures to { host_writer (line_to result) ≡ to }
        ensures apart { in_step result ≡ false }
        ensures number { number_of result ≡ first_word }
        ensures new { line_state result ≡ record { vouching = NotTold; keys = None; signatures = 0; once = 0; faults = 0 } }
    {
        SignerOver::over(HostReader::new(from), HostWriter::new(to), first_word)
    }
}

impl<R: RawReader, W: HandsOn> SignerOver<R, W> {
    ghost use Rattle.std.specs.Prelude.{◌≡◌, ◌++◌, true, false, None, ℕ, List, Err, OnOk, OnErr, IfOk, IfErr, option_map};
    ghost use Rattle.std.specs.Io.KnownBytes.{Appends, Consumes};
    ghost use Rattle.signer_line.specs.Answers.{Answered, IsAnswer, answer_line, told};
    ghost use Rattle.signer_line.specs.Streams.{line_state, line_from, line_to, line_left, in_step, number_of, RightOr, Unheard, Breaks, NoMeeting};
    ghost use Rattle.signer_line.specs.Meetings.{hello, greeting, next_number, number_after, asking, Hears, Comes, ComesFor};
    ghost use Rattle.signer_line.specs.Lines.{request_line, fed};
    ghost use Rattle.signer_line.specs.Openings.{NoGreeting};
    ghost use Rattle.signer_api.specs.State.{SignerState, CountsFault, Answers, next_count};
    ghost use Rattle.signer_api.specs.State.Vouching.{NotTold};
    ghost use Rattle.signer_api.specs.declared.signer.SignerStop.TheVariants.{Fault};

    /// The same over these calls.
    pub fn over(from: R, to: W, first_word: u128) -> Self
        ensures from { line_from result ≡ from }
        ensures left { line_left R.left result ≡ R.left from }
        ensures to { line_to result ≡ to }
        ensures apart { in_step result ≡ false }
        ensures number { number_of result ≡ first_word }
        ensures new { line_state result ≡ record { vouching = NotTold; keys = None; signatures = 0; once = 0; faults = 0 } }
    {
        SignerOver {
            from: Inbox::new(from),
            to,
            in_step: false,
            number: first_word,
            signatures: 0,
            once: 0,
            faults: 0,
        }
    }

    // Opens a meeting, and reads up to its end.
    fn join(&mut self) -> Result<(), Stop>
        ensures state { line_state self.new ≡ line_state self.old }
        ensures number { number_of self.new ≡ next_number (number_of self.old) }
        ensures met { OnOk result (in_step self.new ≡ true) }
        ensures asked { OnOk result (Appends (W.taken (line_to self.old)) (W.taken (line_to self.new)) (hello (number_of self.old))) }
        ensures heard { OnOk result ((passed : List ℕ)
            × Consumes (line_left R.left self.old) (line_left R.left self.new) (passed ++ hello (number_of self.old))) }
        ensures from_ok { OnOk result (R.fault_count (line_from self.new) ≡ R.fault_count (line_from self.old)) }
        ensures to_ok { OnOk result (W.fault_count (line_to self.new) ≡ W.fault_count (line_to self.old)) }
        ensures refused { IfErr result (λ stop. NoMeeting stop
            (Breaks (R.fault_count (line_from self.old)) (R.fault_count (line_from self.new))
            (W.fault_count (line_to self.old)) (W.fault_count (line_to self.new)))
            (line_left R.left self.old) (line_left R.left self.new)) }
    {
        let line = hello_line(self.number);
        self.number = self.number.wrapping_add(1);
        if send(&mut self.to, line.as_bytes()).is_err() {
            return Err(Stop::Broken);
        }
        pass_to(&mut self.from, line.as_bytes())?;
        self.in_step = true;
        Ok(())
    }

    /// Meets the other end anew. It is refused where a call of a stream fails, or no answer comes: before
    /// the end, or within a mebibyte.
    pub fn meet(&mut self) -> Result<(), SignerStop>
        ensures fault { IfErr result (λ stop. stop ≡ Fault) }
        ensures counted { Answers (λ _ signer. signer) result (line_state self.old) (line_state self.new) }
        ensures number { number_of self.new ≡ next_number (number_of self.old) }
        ensures met { OnOk result (in_step self.new ≡ true) }
        ensures apart { OnErr result (in_step self.new ≡ false) }
        ensures asked { OnOk result (Appends (W.taken (line_to self.old)) (W.taken (line_to self.new)) (hello (number_of self.old))) }
        ensures heard { OnOk result ((passed : List ℕ)
            × Consumes (line_left R.left self.old) (line_left R.left self.new) (passed ++ hello (number_of self.old))) }
        ensures refused { OnErr result ((stop : Stop) × NoMeeting stop
            (Breaks (R.fault_count (line_from self.old)) (R.fault_count (line_from self.new))
            (W.fault_count (line_to self.old)) (W.fault_count (line_to self.new)))
            (line_left R.left self.old) (line_left R.left self.new)) }
    {
        match self.join() {
            Ok(()) => Ok(()),
            Err(_) => Err(self.failed()),
        }
    }

    // Opens the line, and reads up to the end of the second answer.
    #[tactic(auto, using(crate::proofs::OpeningLemmas::unmet_breaks))]
    fn begin(&mut self) -> Result<(), Unmet>
        ensures state { line_state self.new ≡ line_state self.old }
        ensures number { number_of self.new ≡ next_number (next_number (number_of self.old)) }
        ensures met { OnOk result (in_step self.new ≡ true) }
        ensures asked { OnOk result (Appends (W.taken (line_to self.old)) (W.taken (line_to self.new)) (greeting (number_of self.old))) }
        ensures heard { OnOk result ((passed : List ℕ)
            × Consumes (line_left R.left self.old) (line_left R.left self.new) (passed ++ hello (next_number (number_of self.old)))) }
        ensures refused { IfErr result (λ unmet. NoGreeting unmet
            (Breaks (R.fault_count (line_from self.old)) (R.fault_count (line_from self.new))
            (W.fault_count (line_to self.old)) (W.fault_count (line_to self.new)))
            (line_left R.left self.old) (line_left R.left self.new)) }
    {
        let lines = greeting_lines(self.number);
        let next = self.number.wrapping_add(1);
        self.number = next.wrapping_add(1);
        if send(&mut self.to, lines.as_bytes()).is_err() {
            return Err(Unmet::Gone);
        }
        let answer = hello_text(next);
        pass_to_answer(&mut self.from, answer.as_bytes())?;
        self.in_step = true;
        Ok(())
    }

    /// Meets the other end at the start, where it may be a signer that doesn't know hellos. It is sent two, and
    /// lines are passed over up to the answer to the second one. An earlier run may have left one line that is
    /// none of a meeting's, whole or in part: with the second such line, or one longer than any answer, it is
    /// refused as a stranger.
    pub fn greet(&mut self) -> Result<(), Unmet>
        ensures fine { OnOk result (line_state self.new ≡ line_state self.old) }
        ensures counted { OnErr result (CountsFault (line_state self.old) (line_state self.new)) }
        ensures number { number_of self.new ≡ next_number (next_number (number_of self.old)) }
        ensures met { OnOk result (in_step self.new ≡ true) }
        ensures apart { OnErr result (in_step self.new ≡ false) }
        ensures asked { OnOk result (Appends (W.taken (line_to self.old)) (W.taken (line_to self.new)) (greeting (number_of self.old))) }
        ensures heard { OnOk result ((passed : List ℕ)
            × Consumes (line_left R.left self.old) (line_left R.left self.new) (passed ++ hello (next_number (number_of self.old)))) }
        ensures refused { IfErr result (λ unmet. NoGreeting unmet
            (Breaks (R.fault_count (line_from self.old)) (R.fault_count (line_from self.new))
            (W.fault_count (line_to self.old)) (W.fault_count (line_to self.new)))
            (line_left R.left self.old) (line_left R.left self.new)) }
    {
        match self.begin() {
            Ok(()) => Ok(()),
            Err(unmet) => {
                let _ = self.failed();
                Err(unmet)
            }
        }
    }

    // Asks and hears the answer, in step.
    fn exchange(&mut self, request: &Request) -> Result<Answer, Unanswered>
        ensures state { line_state self.new ≡ line_state self.old }
        ensures number { number_of self.new ≡ number_of self.old }
        ensures step { in_step self.new ≡ in_step self.old }
        ensures asked { OnOk result (Appends (W.taken (line_to self.old)) (W.taken (line_to self.new)) (fed (request_line request.now))) }
        ensures handed { OnOk result (W.handed (line_to self.new) ≡ W.taken (line_to self.new)) }
        ensures heard { IfOk result (λ answer. Consumes (line_left R.left self.old) (line_left R.left self.new)
            (fed (answer_line (told answer)))) }
        ensures exact { (answer : Answered) → IsAnswer answer → Comes (line_left R.left self.old) (answer_line answer)
            → RightOr (Breaks (R.fault_count (line_from self.old)) (R.fault_count (line_from self.new))
            (W.fault_count (line_to self.old)) (W.fault_count (line_to self.new)))
            (λ given. told given ≡ answer) result }
    {
        let sent = send(&mut self.to, line_of(request).as_bytes());
        if sent.is_err() {
            return Err(Unanswered);
        }
        match receive(&mut self.from) {
            Ok(line) => match read_answer(line.as_bytes()) {
                Some(answer) => Ok(answer),
                None => Err(Unanswered),
            },
            Err(_) => Err(Unanswered),
        }
    }

    // Asks and hears the answer. Out of step both ends meet first.
    fn ask(&mut self, request: &Request) -> Result<Answer, Unanswered>
        ensures state { line_state self.new ≡ line_state self.old }
        ensures number { number_of self.new ≡ number_after (in_step self.old) (number_of self.old) }
        ensures step { OnOk result (in_step self.new ≡ true) }
        ensures asked { OnOk result (Appends (W.taken (line_to self.old)) (W.taken (line_to self.new))
            (asking (in_step self.old) (number_of self.old) (request_line request.now))) }
        ensures handed { OnOk result (W.handed (line_to self.new) ≡ W.taken (line_to self.new)) }
        ensures heard { IfOk result (λ answer. Hears (in_step self.old) (number_of self.old)
            (line_left R.left self.old) (line_left R.left self.new) (answer_line (told answer))) }
        ensures exact { (answer : Answered) → IsAnswer answer
            → ComesFor (in_step self.old) (number_of self.old) (line_left R.left self.old) (answer_line answer)
            → RightOr (Unheard (in_step self.old) (Breaks (R.fault_count (line_from self.old)) (R.fault_count (line_from self.new))
            (W.fault_count (line_to self.old)) (W.fault_count (line_to self.new)))
            (line_left R.left self.old) (line_left R.left self.new))
            (λ given. told given ≡ answer) result }
    {
        if self.in_step {
            return self.exchange(request);
        }
        match self.join() {
            Ok(()) => self.exchange(request),
            Err(_) => Err(Unanswered),
        }
    }

    fn failed(&mut self) -> SignerStop
        ensures stop { result ≡ Fault }
        ensures counted { CountsFault (line_state self.old) (line_state self.new) }
        ensures apart { in_step self.new ≡ false }
        ensures number { number_of self.new ≡ number_of self.old }
        ensures inbox { self.new.from ≡ self.old.from }
        ensures to { line_to self.new ≡ line_to self.old }
    {
        self.in_step = false;
        self.faults = raised(self.faults);
        SignerStop::Fault
    }

    fn count_signature(&mut self)
        ensures counted { line_state self.new ≡ record (line_state self.old) { signatures = next_count self.old.signatures } }
        ensures step { in_step self.new ≡ in_step self.old }
        ensures number { number_of self.new ≡ number_of self.old }
        ensures inbox { self.new.from ≡ self.old.from }
        ensures to { line_to self.new ≡ line_to self.old }
    {
        self.signatures = self.signatures.saturating_add(1);
    }

    fn count_one_use(&mut self)
        ensures counted { line_state self.new ≡ record (line_state self.old) { once = next_count self.old.once } }
        ensures step { in_step self.new ≡ in_step self.old }
        ensures number { number_of self.new ≡ number_of self.old }
        ensures inbox { self.new.from ≡ self.old.from }
        ensures to { line_to self.new ≡ line_to self.old }
    {
        self.once = self.once.saturating_add(1);
    }
}

// The key that was answered.
fn key_in(answer: Result<Answer, Unanswered>) -> Option<PublicKey>
    ensures told { IfSome result (λ key. heard_of answer ≡ Some (Key key.bytes)) }
    ensures every { (key : List ℕ) → heard_of answer ≡ Some (Key key) → IsSome result }
{
    match answer {
        Ok(Answer::Key(key)) => Some(key),
        Ok(Answer::Signature(_)) => None,
        Ok(Answer::Once(_)) => None,
        Ok(Answer::Checked(_)) => None,
        Ok(Answer::Dropped) => None,
        Err(_) => None,
    }
}

// The signature that was answered.
fn signature_in(answer: Result<Answer, Unanswered>) -> Option<Signature>
    ensures told { IfSome result (λ s. heard_of answer ≡ Some (SignatureAnswer s.bytes)) }
    ensures every { (signature : List ℕ) → heard_of answer ≡ Some (SignatureAnswer signature) → IsSome result }
{
    match answer {
        Ok(Answer::Key(_)) => None,
        Ok(Answer::Signature(signature)) => Some(signature),
        Ok(Answer::Once(_)) => None,
        Ok(Answer::Checked(_)) => None,
        Ok(Answer::Dropped) => None,
        Err(_) => None,
    }
}

// The key and the signature that were answered.
fn once_in(answer: Result<Answer, Unanswered>) -> Option<OneUse>
    ensures told { IfSome result (λ once. heard_of answer ≡ Some (Once once.key.bytes once.signature.bytes)) }
    ensures every { (key signature : List ℕ) → heard_of answer ≡ Some (Once key signature) → IsSome result }
{
    match answer {
        Ok(Answer::Key(_)) => None,
        Ok(Answer::Signature(_)) => None,
        Ok(Answer::Once(once)) => Some(once),
        Ok(Answer::Checked(_)) => None,
        Ok(Answer::Dropped) => None,
        Err(_) => None,
    }
}

// The yes or no that was answered.
fn check_in(answer: Result<Answer, Unanswered>) -> Option<bool>
    ensures told { IfSome result (λ yes. heard_of answer ≡ Some (Checked yes)) }
    ensures every { (yes : Bool) → heard_of answer ≡ Some (Checked yes) → IsSome result }
{
    match answer {
        Ok(Answer::Key(_)) => None,
        Ok(Answer::Signature(_)) => None,
        Ok(Answer::Once(_)) => None,
        Ok(Answer::Checked(yes)) => Some(yes),
        Ok(Answer::Dropped) => None,
        Err(_) => None,
    }
}

// That a key was dropped, if it was answered.
fn drop_in(answer: Result<Answer, Unanswered>) -> Option<()>
    ensures told { IfSome result (λ _. heard_of answer ≡ Some Dropped) }
    ensures every { heard_of answer ≡ Some Dropped → IsSome result }
{
    match answer {
        Ok(Answer::Key(_)) => None,
        Ok(Answer::Signature(_)) => None,
        Ok(Answer::Once(_)) => None,
        Ok(Answer::Checked(_)) => None,
        Ok(Answer::Dropped) => Some(()),
        Err(_) => None,
    }
}

impl<R: RawReader, W: HandsOn> Signer for SignerOver<R, W> {
    ghost use Rattle.std.specs.Prelude.{◌≡◌, ◌↔◌, ◌⊎◌, ℕ, List, Bool, true, false, length, IsTrue, IsOk, IsErr, OnOk, OnErr, IfOk, IfErr};
    ghost use Rattle.signer_api.specs.declared.signer.SignerStop.TheVariants.{Fault};
    ghost use Rattle.std.specs.Io.KnownBytes.{Appends, Consumes};
    ghost use Rattle.hex.specs.Hex.{IsBytes};
    ghost use Rattle.signer_api.specs.PublicKey.{IsPublicKey};
    ghost use Rattle.signer_api.specs.State.{Signed, Answers, DropsKey, Tells, Vouches, with_key, with_signature, with_once};
    ghost use Rattle.signer_line.specs.Streams.{line_state, line_from, line_to, line_left, in_step, number_of, RightOr, Unheard, Breaks, Succeeds};
    ghost use Rattle.signer_line.specs.Meetings.{number_after, asking, Hears, ComesFor};
    ghost use Rattle.signer_line.specs.Lines.{make_request, sign_request, once_request, check_request, drop_request, key_line, signature_line, once_line, check_line, drop_line};

    ghost state = { λ signer. line_state signer };

    fn make_key(&mut self, _alloc: Global) -> Result<PublicKey, SignerStop>
        ensures fault { IfErr result (λ stop. stop ≡ Fault) }
        ensures made { Answers (λ key. with_key key.bytes) result (line_state self.old) (line_state self.new) }
        ensures step { (IsOk result → in_step self.new ≡ true) × (IsErr result → in_step self.new ≡ false) }
        ensures number { number_of self.new ≡ number_after (in_step self.old) (number_of self.old) }
        ensures asked { OnOk result (Appends (W.taken (line_to self.old)) (W.taken (line_to self.new))
            (asking (in_step self.old) (number_of self.old) (make_request))) }
        ensures handed { OnOk result (W.handed (line_to self.new) ≡ W.taken (line_to self.new)) }
        ensures heard { IfOk result (λ key. Hears (in_step self.old) (number_of self.old)
            (line_left R.left self.old) (line_left R.left self.new) (key_line key.bytes)) }
        ensures exact { (key : List ℕ) → IsPublicKey key → IsBytes key
            → ComesFor (in_step self.old) (number_of self.old) (line_left R.left self.old) (key_line key)
            → RightOr (Unheard (in_step self.old) (Breaks (R.fault_count (line_from self.old)) (R.fault_count (line_from self.new))
            (W.fault_count (line_to self.old)) (W.fault_count (line_to self.new)))
            (line_left R.left self.old) (line_left R.left self.new))
            (λ given. given.bytes ≡ key) result }
    {
        let answer = self.ask(&Request::Make);
        match key_in(answer) {
            Some(key) => Ok(key),
            None => Err(self.failed()),
        }
    }

    fn sign(
        &mut self,
        _alloc: Global,
        key: &PublicKey,
        digest: &Digest,
    ) -> Result<Signature, SignerStop>
        ensures fault { IfErr result (λ stop. stop ≡ Fault) }
        ensures signed { Answers
            (λ s. with_signature (record { key = key.now.bytes; digest = digest.now.bytes; signature = s.bytes }))
            result (line_state self.old) (line_state self.new) }
        ensures vouched { IfOk result (λ s. Tells (line_state self.old)
            → Vouches (line_state self.new) key.now.bytes digest.now.bytes s.bytes) }
        ensures step { (IsOk result → in_step self.new ≡ true) × (IsErr result → in_step self.new ≡ false) }
        ensures number { number_of self.new ≡ number_after (in_step self.old) (number_of self.old) }
        ensures asked { OnOk result (Appends (W.taken (line_to self.old)) (W.taken (line_to self.new))
            (asking (in_step self.old) (number_of self.old) (sign_request key.now.bytes digest.now.bytes))) }
        ensures handed { OnOk result (W.handed (line_to self.new) ≡ W.taken (line_to self.new)) }
        ensures heard { IfOk result (λ s. Hears (in_step self.old) (number_of self.old)
            (line_left R.left self.old) (line_left R.left self.new) (signature_line s.bytes)) }
        ensures exact { (signature : List ℕ) → length signature ≡ 256 → IsBytes signature
            → ComesFor (in_step self.old) (number_of self.old) (line_left R.left self.old) (signature_line signature)
            → RightOr (Unheard (in_step self.old) (Breaks (R.fault_count (line_from self.old)) (R.fault_count (line_from self.new))
            (W.fault_count (line_to self.old)) (W.fault_count (line_to self.new)))
            (line_left R.left self.old) (line_left R.left self.new))
            (λ given. given.bytes ≡ signature) result }
    {
        let answer = self.ask(&Request::Sign { key, digest });
        match signature_in(answer) {
            Some(signature) => {
                self.count_signature();
                Ok(signature)
            }
            None => Err(self.failed()),
        }
    }

    fn sign_once(&mut self, _alloc: Global, digest: &Digest) -> Result<OneUse, SignerStop>
        ensures fault { IfErr result (λ stop. stop ≡ Fault) }
        ensures signed { Answers
            (λ once. with_once (record { key = once.key.bytes; digest = digest.now.bytes; signature = once.signature.bytes }))
            result (line_state self.old) (line_state self.new) }
        ensures vouched { IfOk result (λ once. Tells (line_state self.old)
            → Vouches (line_state self.new) once.key.bytes digest.now.bytes once.signature.bytes) }
        ensures step { (IsOk result → in_step self.new ≡ true) × (IsErr result → in_step self.new ≡ false) }
        ensures number { number_of self.new ≡ number_after (in_step self.old) (number_of self.old) }
        ensures asked { OnOk result (Appends (W.taken (line_to self.old)) (W.taken (line_to self.new))
            (asking (in_step self.old) (number_of self.old) (once_request digest.now.bytes))) }
        ensures handed { OnOk result (W.handed (line_to self.new) ≡ W.taken (line_to self.new)) }
        ensures heard { IfOk result (λ once. Hears (in_step self.old) (number_of self.old)
            (line_left R.left self.old) (line_left R.left self.new) (once_line once.key.bytes once.signature.bytes)) }
        ensures exact { (key signature : List ℕ) → IsPublicKey key → IsBytes key → length signature ≡ 256 → IsBytes signature
            → ComesFor (in_step self.old) (number_of self.old) (line_left R.left self.old) (once_line key signature)
            → RightOr (Unheard (in_step self.old) (Breaks (R.fault_count (line_from self.old)) (R.fault_count (line_from self.new))
            (W.fault_count (line_to self.old)) (W.fault_count (line_to self.new)))
            (line_left R.left self.old) (line_left R.left self.new))
            (λ given. (given.key.bytes ≡ key) × (given.signature.bytes ≡ signature)) result }
    {
        let answer = self.ask(&Request::Once { digest });
        match once_in(answer) {
            Some(once) => {
                self.count_signature();
                self.count_one_use();
                Ok(once)
            }
            None => Err(self.failed()),
        }
    }

    fn check(
        &mut self,
        _alloc: Global,
        key: &PublicKey,
        digest: &Digest,
        signature: &Signature,
    ) -> Result<bool, SignerStop>
        ensures answer { IfOk result (λ yes. Tells (line_state self.old)
            → (IsTrue yes ↔ Vouches (line_state self.new) key.now.bytes digest.now.bytes signature.now.bytes)) }
        ensures fault { IfErr result (λ stop. stop ≡ Fault) }
        ensures stays { Answers (λ _ signer. signer) result (line_state self.old) (line_state self.new) }
        ensures step { (IsOk result → in_step self.new ≡ true) × (IsErr result → in_step self.new ≡ false) }
        ensures number { number_of self.new ≡ number_after (in_step self.old) (number_of self.old) }
        ensures asked { OnOk result (Appends (W.taken (line_to self.old)) (W.taken (line_to self.new))
            (asking (in_step self.old) (number_of self.old) (check_request key.now.bytes digest.now.bytes signature.now.bytes))) }
        ensures handed { OnOk result (W.handed (line_to self.new) ≡ W.taken (line_to self.new)) }
        ensures heard { IfOk result (λ yes. Hears (in_step self.old) (number_of self.old)
            (line_left R.left self.old) (line_left R.left self.new) (check_line yes)) }
        ensures exact { (yes : Bool)
            → ComesFor (in_step self.old) (number_of self.old) (line_left R.left self.old) (check_line yes)
            → RightOr (Unheard (in_step self.old) (Breaks (R.fault_count (line_from self.old)) (R.fault_count (line_from self.new))
            (W.fault_count (line_to self.old)) (W.fault_count (line_to self.new)))
            (line_left R.left self.old) (line_left R.left self.new))
            (λ given. given ≡ yes) result }
    {
        let answer = self.ask(&Request::Check {
            key,
            digest,
            signature,
        });
        match check_in(answer) {
            Some(yes) => Ok(yes),
            None => Err(self.failed()),
        }
    }

    fn drop_key(&mut self, key: &PublicKey)
        ensures dropped { DropsKey key.now.bytes (line_state self.old) (line_state self.new) }
        ensures number { number_of self.new ≡ number_after (in_step self.old) (number_of self.old) }
        // A call that failed is known by the count, which rises but at the last value of a u64.
        ensures asked { Succeeds self.old.faults self.new.faults → Appends (W.taken (line_to self.old))
            (W.taken (line_to self.new)) (asking (in_step self.old) (number_of self.old) (drop_request key.now.bytes)) }
        ensures handed { Succeeds self.old.faults self.new.faults → W.handed (line_to self.new) ≡ W.taken (line_to self.new) }
        ensures heard { Succeeds self.old.faults self.new.faults → Hears (in_step self.old) (number_of self.old)
            (line_left R.left self.old) (line_left R.left self.new) drop_line }
        ensures exact { ComesFor (in_step self.old) (number_of self.old) (line_left R.left self.old) drop_line
            → (self.new.faults ≡ self.old.faults)
            ⊎ Unheard (in_step self.old) (Breaks (R.fault_count (line_from self.old)) (R.fault_count (line_from self.new))
            (W.fault_count (line_to self.old)) (W.fault_count (line_to self.new)))
            (line_left R.left self.old) (line_left R.left self.new) }
    {
        let answer = self.ask(&Request::Discard { key });
        match drop_in(answer) {
            Some(()) => {}
            None => {
                let _ = self.failed();
            }
        }
    }

    fn faults(&self) -> u64 {
        self.faults
    }
}
