//! Laws of readings.

ghost use Rattle.cert_text_feed.specs.Readings.{GoesOnAsRead, HasOneReading};

/// Bytes have one reading, however they were cut into pieces.
pub fn has_one_reading()
    ensures { HasOneReading }
{}

/// The lines that are read are the first of each certificate that begins with the bytes.
pub fn goes_on_as_read()
    ensures { GoesOnAsRead }
{}
