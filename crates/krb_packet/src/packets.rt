//! Capture files, read one packet at a time.

use crate::format::{Format, Next, next_step, packet};
use crate::packet::Packet;
use crate::pcap::{Header, MOST_CAPTURED};
use krb_file::{FieldReader, FileFault, Limit, Progress, StreamReader};
use std::alloc::Global;
use std::io::Read;
use std::marker::Model;
use std::mem::replace;

/// A reader of the packets of a capture file, one after another. It reads no octet after the
/// packet that it returns, keeps none that it returned, and allocates by the octets that came.
#[derive(Drop)]
pub struct Packets<R: Read> {
    reader: StreamReader<R>,
    /// While it is open it keeps what was read of the format.
    state: Progress<Format, ()>,
    /// How many packets were returned.
    count: u64,
}

impl<R: Read> Model for Packets<R> {
    ghost use Rattle.std.specs.Prelude.{◌≤◌};
    ghost use Rattle.krb_packet.specs.Streaming.{PacketsModel, blocks_before};

    ghost Value = { PacketsModel };

    ghost view = { λ packets. record { cursor = packets.reader; state = packets.state; count = packets.count } };

    ghost invariant = { λ packets. (packets.count ≤ packets.reader.place) × (blocks_before packets.state ≤ packets.reader.place) };
}

ghost use Rattle.std.specs.Prelude.{◌≡◌, ◌≤◌, ℕ, List, [], Some, None, Ok, Err, IfErr, IfSome, OnOk};
ghost use Rattle.krb_file.specs.FieldReaders.{Stays};
ghost use Rattle.krb_file.specs.Fields.{IsStreamFaultIn};
ghost use Rattle.krb_file.specs.declared.progress.Progress.TheVariants as states;
ghost use Rattle.krb_packet.specs.declared.format.Format.TheVariants as formats;
ghost use Rattle.krb_file.specs.declared.fault.FileFault.{FileFault as FaultValue};
ghost use Rattle.krb_packet.specs.Captures.{blocks_of};
ghost use Rattle.krb_packet.specs.Streaming.{Reads, ReturnsNext};

impl<R: Read> Packets<R> {
    /// Returns a reader of the packets of `reader`. Nothing is read yet.
    pub fn new(reader: R) -> Packets<R>
        ensures begins { (file : List ℕ) → R.remaining reader ≡ Some file → Reads result file 0 }
        // No octet was read.
        ensures fetched { result.cursor.ahead ≡ [] }
    {
        let limit = Limit::new(MOST_CAPTURED).unwrap();
        Packets {
            reader: StreamReader::new(reader, limit),
            state: Progress::Open(Format::Unknown),
            count: 0,
        }
    }

    /// Reads the next packet; returns `None` at the end of the file. A file is refused at the first
    /// field at fault, which the fault names. After a fault each call returns this fault, and after
    /// the end each call returns `None`; neither reads any more.
    pub fn next_packet(&mut self, alloc: Global) -> Result<Option<Packet>, FileFault>
        // The packets of the file that is read, one after another, and then the end or the fault.
        ensures next { (file : List ℕ) (given : ℕ) → Reads self.old file given → ReturnsNext file given result self.new }
        // A refusal is at a place of the file or at its end.
        ensures refused { (file : List ℕ) (given : ℕ) → Reads self.old file given → IfErr result (IsStreamFaultIn file) }
        // No octet after what is returned was read, if none was read ahead before.
        ensures fetched { OnOk result (self.old.cursor.ahead ≡ [] → self.new.cursor.ahead ≡ []) }
        ensures ends { result ≡ Ok None → self.new.state ≡ states.Done (tt {0}) }
        ensures fails { IfErr result (λ fault. self.new.state ≡ states.Failed fault) }
        // After the end or a fault nothing more is read.
        ensures ended { self.old.state ≡ states.Done (tt {0}) → (result ≡ Ok None) × (self.new ≡ self.old) }
        ensures failed { (fault : FaultValue) → self.old.state ≡ states.Failed fault → (result ≡ Err fault) × (self.new ≡ self.old) }
    {
        if let Some(header) = self.pcap_header() {
            return self.read_captured(header, alloc);
        }
        match replace(&mut self.state, Progress::Done(())) {
            Progress::Open(format) => self.read_next(format, alloc),
            Progress::Done(()) => Ok(None),
            Progress::Failed(fault) => {
                self.state = Progress::Failed(fault);
                Err(fault)
            }
        }
    }

    /// Gives back a packet that was read, whose vector is used for the next packets.
    pub fn give_back(&mut self, packet: Packet)
        ensures { self.new ≡ self.old }
    {
        let Packet { octets, .. } = packet;
        self.reader.give_back(octets);
    }

    /// Returns the header of a pcap, if that was read and the file has not ended yet.
    #[inline(always)]
    fn pcap_header(&self) -> Option<Header>
        ensures { IfSome result (λ header. self.now.state ≡ states.Open (formats.Pcap header)) }
    {
        match &self.state {
            Progress::Open(Format::Pcap(header)) => Some(*header),
            _ => None,
        }
    }

    /// Returns the next packet of a pcap whose header was read. Unlike
    /// [`read_next`](Packets::read_next) it leaves the progress where it is.
    #[inline(always)]
    fn read_captured(&mut self, header: Header, alloc: Global) -> Result<Option<Packet>, FileFault>
        requires { self.old.state ≡ states.Open (formats.Pcap header) }
        ensures next { (file : List ℕ) (given : ℕ) → Reads self.old file given → ReturnsNext file given result self.new }
        ensures stays { OnOk result (Stays self.old.cursor self.new.cursor) }
        ensures ends { result ≡ Ok None → self.new.state ≡ states.Done (tt {0}) }
        ensures fails { IfErr result (λ fault. self.new.state ≡ states.Failed fault) }
    {
        let start = self.reader.place();
        let read = packet(alloc, header, self.count, start, &mut self.reader);
        match &read {
            Ok(Some(_)) => self.count += 1,
            Ok(None) => self.state = Progress::Done(()),
            Err(fault) => self.state = Progress::Failed(*fault),
        }
        read
    }

    /// Returns the next packet of a file that was read so far.
    #[inline(never)]
    fn read_next(&mut self, format: Format, alloc: Global) -> Result<Option<Packet>, FileFault>
        requires { blocks_of format ≤ self.old.cursor.place }
        ensures next { (file : List ℕ) (given : ℕ) → Reads (record self.old { state = states.Open format }) file given → ReturnsNext file given result self.new }
        ensures stays { OnOk result (Stays self.old.cursor self.new.cursor) }
        ensures ends { result ≡ Ok None → self.new.state ≡ states.Done (tt {0}) }
        ensures fails { IfErr result (λ fault. self.new.state ≡ states.Failed fault) }
    {
        let mut format = format;
        'steps: loop {
            match next_step(alloc, format, self.count, &mut self.reader) {
                Ok(Next::NoPacket(passed)) => format = passed,
                Ok(Next::Packet(packet, after)) => {
                    self.state = Progress::Open(after);
                    self.count += 1;
                    return Ok(Some(packet));
                }
                Ok(Next::End) => {
                    self.state = Progress::Done(());
                    return Ok(None);
                }
                Err(fault) => {
                    self.state = Progress::Failed(fault);
                    return Err(fault);
                }
            }
        }
    }
}
