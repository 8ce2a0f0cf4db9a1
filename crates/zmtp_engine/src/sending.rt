ghost use Rattle.std.specs.Prelude.{◌≡◌, ◌++◌, ◌^◌, ◌<◌, ◌⊎◌, [], length, Some, None};
ghost use Rattle.std.specs.Bool.{OnTrue, OnFalse};
ghost use Rattle.zmtp_engine.specs.Output.{Run, filled_run, next_run, piece_of, after_run, pieces_of};
ghost use Rattle.zmtp_engine.specs.WriterView.{head_at, body_at, pieces_behind, IsSending, IsSendingIn, IsOpen, IsOver, HasRoom, togo, source_in, later_in};

use bytes::BytesMut;
use spec_zmtp::FrameKind;
use zmtp_frame::{Head, encode_head};
use zq_base::Message;

/// The most octets of a run of several pieces.
pub(crate) const RUN: usize = 8192;

/// What of a frame is taken into a run next.
#[derive(Clone, Copy)]
pub(crate) enum Next {
    Head,
    Body,
    /// Nothing: its body is lent from its own place, and is not wholly written.
    Lent,
}

/// A message that is being written, and the frame that goes on.
#[derive(Drop)]
pub(crate) struct Sending {
    pub(crate) message: Message,
    pub(crate) frame: usize,
    pub(crate) next: Next,
}

impl Sending {
    /// A message of which nothing is in a run.
    pub(crate) fn new(message: Message) -> Self
        ensures sending { IsSending result }
        ensures pieces { pieces_behind result ≡ pieces_of message }
        ensures head { result.next ≡ Next.Head }
    {
        Sending {
            message,
            frame: 0,
            next: Next::Head,
        }
    }

    // The head of the frame that goes on.
    fn head(&self) -> Head
        requires { self.now.frame < length self.now.message }
        ensures { result ≡ head_at self.now.message self.now.frame }
    {
        let count = self.message.len();
        let kind = if self.frame + 1 == count {
            FrameKind::Last
        } else {
            FrameKind::More
        };
        encode_head(kind, self.message.frame(self.frame).len() as u64)
    }

    /// The body of the frame that goes on.
    pub(crate) fn body(&self) -> &[u8]
        requires { self.now.frame < length self.now.message }
        ensures value { result.now ≡ body_at self.now.message self.now.frame }
        ensures few { length result.now < 2 ^ 32 }
    {
        let frame = self.message.frame(self.frame);
        let _few = frame.len();
        frame.as_slice()
    }

    // Takes a head into the run, if it holds it.
    fn gather_head(&mut self, run: &mut BytesMut) -> bool
        requires within { self.old.frame < length self.old.message }
        requires head { self.old.next ≡ Next.Head }
        requires room { HasRoom run.old }
        ensures room { HasRoom run.new }
        ensures sending { IsSending self.new × IsOpen self.new.next }
        ensures gathered { filled_run run.old.items (pieces_behind self.old) ≡ filled_run run.new.items (pieces_behind self.new) }
        ensures goes_on { OnTrue result (togo self.new < togo self.old) }
        ensures over { OnFalse result ((self.new ≡ self.old) × (run.new ≡ run.old) × IsOver self.old (length run.old.items)) }
    {
        let head = self.head();
        if head.len() > RUN - run.len() {
            return false;
        }
        run.extend_reserved(head.as_slice());
        self.next = Next::Body;
        true
    }

    // Takes a body into the run, if it holds it.
    fn gather_body(&mut self, run: &mut BytesMut) -> bool
        requires within { self.old.frame < length self.old.message }
        requires body { self.old.next ≡ Next.Body }
        requires room { HasRoom run.old }
        ensures room { HasRoom run.new }
        ensures sending { IsSending self.new × IsOpen self.new.next }
        ensures gathered { filled_run run.old.items (pieces_behind self.old) ≡ filled_run run.new.items (pieces_behind self.new) }
        ensures goes_on { OnTrue result (togo self.new < togo self.old) }
        ensures over { OnFalse result ((self.new ≡ self.old) × (run.new ≡ run.old) × IsOver self.old (length run.old.items)) }
    {
        let body = self.body();
        if body.len() > RUN - run.len() {
            return false;
        }
        run.extend_reserved(body);
        let count = self.message.len();
        prove!(self.frame < count);
        self.frame += 1;
        self.next = Next::Head;
        true
    }

    // Takes the next piece into the run, if it holds it.
    fn gather_piece(&mut self, run: &mut BytesMut) -> bool
        requires within { self.old.frame < length self.old.message }
        requires open { IsOpen self.old.next }
        requires room { HasRoom run.old }
        ensures room { HasRoom run.new }
        ensures sending { IsSending self.new × IsOpen self.new.next }
        ensures gathered { filled_run run.old.items (pieces_behind self.old) ≡ filled_run run.new.items (pieces_behind self.new) }
        ensures goes_on { OnTrue result (togo self.new < togo self.old) }
        ensures over { OnFalse result ((self.new ≡ self.old) × (run.new ≡ run.old) × IsOver self.old (length run.old.items)) }
    {
        match self.next {
            Next::Head => self.gather_head(run),
            Next::Body => self.gather_body(run),
            Next::Lent => unreachable!(),
        }
    }

    // Takes whole pieces into the run, as many as it holds.
    fn gather(&mut self, run: &mut BytesMut)
        requires sending { IsSending self.old }
        requires open { IsOpen self.old.next }
        requires room { HasRoom run.old }
        ensures room { HasRoom run.new }
        ensures sending { IsSending self.new × IsOpen self.new.next }
        ensures gathered { filled_run run.old.items (pieces_behind self.old)
            ≡ record { octets = run.new.items; later = pieces_behind self.new } }
        ensures over { (self.new.frame ≡ length self.new.message) ⊎ IsOver self.new (length run.new.items) }
    {
        'pieces: while self.frame < self.message.len() {
            if !self.gather_piece(run) {
                return;
            }
        }
    }

    // Goes on behind a body that was lent.
    fn past_lent(self) -> Sending
        requires { IsSending self }
        ensures sending { IsSending result × IsOpen result.next }
        ensures pieces { pieces_behind result ≡ pieces_behind self }
    {
        match self.next {
            Next::Head | Next::Body => self,
            Next::Lent => Sending {
                message: self.message,
                frame: self.frame + 1,
                next: Next::Head,
            },
        }
    }

    /// Takes whole pieces into the run, as many as it holds; a body that none holds is lent. Nothing is left of a
    /// message that is wholly written.
    pub(crate) fn go_on(self, run: &mut BytesMut) -> Option<Sending>
        requires sending { IsSending self }
        requires room { HasRoom run.old }
        ensures room { HasRoom run.new }
        ensures sending { IsSendingIn result }
        ensures run { source_in result run.new.items ≡ (next_run (piece_of run.old.items ++ pieces_behind self)).octets }
        ensures later { later_in result
            ≡ after_run (next_run (piece_of run.old.items ++ pieces_behind self)) (Some (pieces_behind self)) }
        ensures short { length (source_in result run.new.items) < 2 ^ 32 }
        ensures lends { source_in result run.new.items ≡ [] → later_in result ≡ None }
    {
        let mut sending = self.past_lent();
        sending.gather(run);
        if !run.is_empty() {
            return Some(sending);
        }
        if sending.frame == sending.message.len() {
            return None;
        }
        let _long = sending.body();
        sending.next = Next::Lent;
        Some(sending)
    }
}
