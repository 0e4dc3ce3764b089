//! The errors of the libraries as texts, and failed allocations, which are kept apart.

use crate::words::Words;
use arrayvec::ArrayString;
use mes_double_http::{HeadFault, MAX_HEAD_FAULT};
use mes_double_master::MasterRefusal;
use mes_model_schema::json::{NoMemory, ReadFault, TextFault, TextFaultKind};
use mes_model_schema::{FieldFault, MAX_PATH_TEXT, PartFault};
use mes_msg::{EncodeFault, RecordFault, SendFault};
use mes_session::{MAX_REFUSAL_LINE, Refusal, refusal_line};
use mes_stream::{Fault, MAX_FAULT_LINE, Stop, fault_line, send_line};

/// The reason for which a call returns no value.
#[derive(Drop)]
pub(crate) enum Reported {
    /// An allocation failed.
    NoMemory,
    /// An allocation failed after this number of bytes of input.
    NoMemoryAfter(u64),
    /// An allocation failed at the log entry with this number, counted from 1.
    NoMemoryIn(u64),
    /// Another error, as text.
    Fault(Words),
}

impl Reported {
    /// Creates an error with this text.
    pub(crate) fn fault(text: &str) -> Reported {
        let mut words = Words::new();
        words.say(text);
        Reported::Fault(words)
    }

    /// Returns the same error if the call changed nothing, else an error which says that it did.
    pub(crate) fn or_changed(self, is_unchanged: bool) -> Reported {
        if is_unchanged {
            return self;
        }
        Reported::fault("refused, and changed")
    }
}

impl From<NoMemory> for Reported {
    fn from(_refused: NoMemory) -> Reported {
        Reported::NoMemory
    }
}

impl From<ReadFault> for Reported {
    fn from(fault: ReadFault) -> Reported {
        match fault {
            ReadFault::Text(fault) => text_fault(&fault),
            ReadFault::NoMemory => Reported::NoMemory,
        }
    }
}

impl From<PartFault> for Reported {
    fn from(fault: PartFault) -> Reported {
        match fault {
            PartFault::Field(fault) => field_fault(fault.get()),
            PartFault::NoMemory => Reported::NoMemory,
        }
    }
}

impl From<RecordFault> for Reported {
    fn from(fault: RecordFault) -> Reported {
        match fault {
            RecordFault::Text(fault) => text_fault(&fault),
            RecordFault::Field(fault) => field_fault(fault.get()),
            RecordFault::NoMemory => Reported::NoMemory,
        }
    }
}

impl From<EncodeFault> for Reported {
    fn from(fault: EncodeFault) -> Reported {
        match fault {
            EncodeFault::TooDeep => Reported::fault("TooDeep"),
            EncodeFault::TooLarge => Reported::fault("TooLarge"),
            EncodeFault::NoMemory => Reported::NoMemory,
        }
    }
}

impl From<SendFault> for Reported {
    fn from(fault: SendFault) -> Reported {
        if matches!(fault, SendFault::NoMemory) {
            return Reported::NoMemory;
        }
        let mut line = ArrayString::<MAX_FAULT_LINE>::new();
        send_line(&fault, &mut line);
        Reported::fault(line.as_str())
    }
}

impl From<Stop> for Reported {
    fn from(stop: Stop) -> Reported {
        fault_after(&stop.fault, stop.used)
    }
}

impl From<HeadFault> for Reported {
    fn from(fault: HeadFault) -> Reported {
        if matches!(fault, HeadFault::NoMemory) {
            return Reported::NoMemory;
        }
        let mut text = ArrayString::<MAX_HEAD_FAULT>::new();
        fault.text(&mut text);
        Reported::fault(text.as_str())
    }
}

impl From<Refusal> for Reported {
    fn from(refusal: Refusal) -> Reported {
        if matches!(refusal, Refusal::NoMemory) {
            return Reported::NoMemory;
        }
        reported_refusal(&refusal, 0)
    }
}

impl From<MasterRefusal> for Reported {
    fn from(refusal: MasterRefusal) -> Reported {
        match refusal {
            MasterRefusal::NoStream => Reported::fault("M1"),
            MasterRefusal::OfferTwice => Reported::fault("M2"),
            MasterRefusal::NoSuchOffer => Reported::fault("M3"),
            MasterRefusal::UpdateTwice => Reported::fault("M4"),
            MasterRefusal::NoSuchUpdate => Reported::fault("M5"),
            MasterRefusal::NoMemory => Reported::NoMemory,
        }
    }
}

/// Converts the error in a stream or a log, which was detected after `used` bytes.
pub(crate) fn fault_after(fault: &Fault, used: u64) -> Reported {
    if matches!(fault, Fault::NoMemory) {
        return Reported::NoMemoryAfter(used);
    }
    let mut line = ArrayString::<MAX_FAULT_LINE>::new();
    fault_line(fault, used, &mut line);
    Reported::fault(line.as_str())
}

/// Converts the reason for which a session rejects a log entry, after `before` entries.
pub(crate) fn refusal_after(refusal: &Refusal, before: u64) -> Reported {
    if matches!(refusal, Refusal::NoMemory) {
        return Reported::NoMemoryIn(before.saturating_add(1));
    }
    reported_refusal(refusal, before)
}

fn reported_refusal(refusal: &Refusal, before: u64) -> Reported {
    let mut line = ArrayString::<MAX_REFUSAL_LINE>::new();
    refusal_line(refusal, before, &mut line);
    Reported::fault(line.as_str())
}

fn text_fault(fault: &TextFault) -> Reported {
    let mut words = Words::new();
    words.say_number("byte", fault.byte);
    words.add_word(match fault.why {
        TextFaultKind::End => "End",
        TextFaultKind::Depth => "Depth",
        TextFaultKind::Byte => "Byte",
    });
    Reported::Fault(words)
}

fn field_fault(fault: &FieldFault) -> Reported {
    let mut path = ArrayString::<MAX_PATH_TEXT>::new();
    fault.path.text(&mut path);
    let mut words = Words::new();
    words.say(path.as_str());
    words.add_word(fault.why.name());
    Reported::Fault(words)
}
