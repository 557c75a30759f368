// Why a call of a check may be refused.
ghost use Rattle.std.specs.Prelude.{◌≡◌};
ghost use Rattle.finds.specs.Refusals.{number_and_place};

// Why a call of a check was not carried out.
#[derive(Clone, Copy, PartialEq, Eq, Debug)]
pub enum Refused {
    // The table has no row, more rows than a table may have, or fewer than there are first configurations.
    Rows,
    // The store is not empty, or it can hold fewer configurations than the table has rows.
    Store,
    // The table or the store is no longer as the check left it.
    Altered,
    // The number of queries granted is not 1 to 65,535.
    Grant,
    // No such row is recorded.
    NoRow,
    // The caller's list is too short for the sequence.
    SequenceRoom,
    // The caller's list is too short for the certificate.
    CertificateRoom,
}

impl Refused {
    // The number of the question that was answered no.
    pub fn number(&self) -> u8
        ensures { result ≡ (number_and_place self.now).0 }
    {
        match *self {
            Refused::Rows => 9,
            Refused::Store => 10,
            Refused::Altered => 11,
            Refused::Grant => 12,
            Refused::NoRow => 13,
            Refused::SequenceRoom => 14,
            Refused::CertificateRoom => 15,
        }
    }

    // The place that the question was about: none has one, so 0.
    pub fn place(&self) -> usize
        ensures { result ≡ (number_and_place self.now).1 }
    {
        match *self {
            Refused::Rows
            | Refused::Store
            | Refused::Altered
            | Refused::Grant
            | Refused::NoRow
            | Refused::SequenceRoom
            | Refused::CertificateRoom => 0,
        }
    }
}
