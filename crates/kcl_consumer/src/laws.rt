//! A law on the Reads of a consumer. A law is a theorem, stated as the contract of an empty function. A tenure is one
//! worker's hold on a lease. A Read fetches a batch, and a Give reports a batch as processed.
ghost use Rattle.kcl_consumer.specs.Standing.{IsNeverFull};

/// Suppose that a consumer has been updated with exactly the answers to the commands on its tenure. Then no Read of the
/// consumer is refused with `TooManyPending`, because the consumer reads only while fewer than `PENDING_READS` reads of
/// the tenure await their Give.
pub fn never_full()
    ensures { IsNeverFull }
{}
