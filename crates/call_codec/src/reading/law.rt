//! Bytes have one reading.
ghost use Rattle.call_codec.specs.Answers.{OneAnswerReading};
ghost use Rattle.call_codec.specs.Readings.{OneReading};

/// Whatever reads a record reads the same.
pub fn one_reading()
    ensures { OneReading }
{}

/// Whatever reads an answer reads the same.
pub fn one_answer_reading()
    ensures { OneAnswerReading }
{}
