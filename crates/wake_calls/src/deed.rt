/// What a thread did on the words of other threads, or on its own mailbox.
///
/// The view of a seat has these deeds. No program computes a view.
#[derive(Clone, Copy, Debug, PartialEq, Eq)]
pub enum WakeDeed {
    /// It gave this thread its token.
    Gave { to: u32 },
    /// It left its rest for a call, which it takes out of its mailbox next.
    RoseForCall,
    /// It took the call out of its mailbox.
    TookCall,
}
