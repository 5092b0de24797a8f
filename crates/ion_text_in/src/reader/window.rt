//! What lies whole in the window, handed to a writer.
ghost use Rattle.std.specs.Prelude.{◌≡◌, ◌+◌, ◌*◌, ◌-◌, ◌≤◌};
ghost use Rattle.ion_meter.specs.Sources.{Stands};
ghost use Rattle.ion_text_in.specs.Feeding.{bounds_of, reader_lane, CanFeed, MovedBy, PassedLent};
ghost use Rattle.ion_text_in.specs.Steps.{held_by, left_to};

use super::TextReader;
use crate::expected::{expected_in, is_separator, member_kind};
use crate::feed::feed_items;
use crate::feed::spot::{Bounds, Spot, innermost};
use ion_meter::device::{Input, Output};
use ion_meter::meter::Meter;
use ion_meter::sink::Sink;
use ion_value::names::Names;
use ion_value::writer::ValueWriter;
use std::alloc::Allocator;

impl<I: Input, A: Allocator + Copy> TextReader<I, A> {
    // Hands on what lies whole in the window, between two items: how many values at top level end.
    #[inline(never)]
    pub(super) fn feed_window<N: Names, W: ValueWriter<O, A>, O: Output>(
        &mut self,
        meter: &mut Meter<A>,
        names: &N,
        writer: &mut W,
        sink: &mut Sink<O, A>,
    ) -> u64
        requires stands { Stands self.old.source }
        requires can { CanFeed W.ValueWriter (bounds_of self.old)
            (reader_lane self.old 0 writer.old sink.old meter.old) }
        ensures moved { MovedBy W.ValueWriter (bounds_of self.old) (N.text names.now)
            (reader_lane self.old 0 writer.old sink.old meter.old)
            (reader_lane self.new result writer.new sink.new meter.new) }
        ensures passed { PassedLent self.old.source self.new.source }
        ensures same { self.new ≡ record self.old {
          source = self.new.source;
          kinds = self.new.kinds;
          expected = self.new.expected;
          top = self.new.top;
        } }
        ensures goes { held_by self.new
            ≤ held_by self.old + 16 * (left_to self.old - left_to self.new) }
    {
        let bytes = self.source.buffer();
        let count = bytes.len();
        let spot = Spot {
            rest: bytes,
            top: self.top,
            values: 0,
            separator: is_separator(self.expected),
            kind: member_kind(innermost(&self.kinds)),
        };
        let bounds = Bounds {
            limits: self.limits,
            end: self.source.place() + count as u64,
        };
        let last = feed_items(spot, names, bounds, &mut self.kinds, meter, writer, sink);
        let taken = count - last.rest.len();
        self.expected = expected_in(last.separator, last.kind);
        self.top = last.top;
        let values = last.values;
        self.source.consume(taken);
        values
    }
}
