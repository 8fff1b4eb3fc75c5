//! What is true of every stream.

ghost use Rattle.record_mark.specs.Stream.{HasOneReading};
ghost use Rattle.record_mark.specs.Sent.{IsOneRecordWhenSent};

/// A stream is these records and no others, so it doesn't matter how it was cut into pieces.
pub fn one_reading()
    ensures { HasOneReading }
{}

/// A message behind its mark is a stream of one record, the message.
pub fn sent_is_one_record()
    ensures { IsOneRecordWhenSent }
{}
