// A line as the tables write it: its period, its deadline and its cost.
#[macro_export]
macro_rules! row {
    ($period:expr, $deadline:expr, $cost:expr) => {
        $crate::Row {
            period: $period,
            deadline: $deadline,
            cost: $cost,
        }
    };
}

// Lines.
#[macro_export]
macro_rules! rows {
    ($(($period:expr, $deadline:expr, $cost:expr)),*) => {
        &[$($crate::row!($period, $deadline, $cost)),*]
    };
}

// A job as the tables write it: its line, its release and its cost.
#[macro_export]
macro_rules! job {
    ($line:expr, $release:expr, $cost:expr) => {
        $crate::Job {
            line: $line,
            release: $release,
            cost: $cost,
        }
    };
}

// The roster's own refusal for a reason, at a place: 0 where none is named.
#[macro_export]
macro_rules! refused {
    ($reason:ident) => {
        $crate::refused!($reason, 0)
    };
    ($reason:ident, $place:expr) => {
        Some($crate::Refusal {
            reason: $crate::Reason::$reason,
            layer: $crate::Layer::Roster,
            place: $place,
        })
    };
}
