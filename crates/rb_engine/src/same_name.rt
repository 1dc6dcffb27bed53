/// Converts an error to the variant with the same name of another enum.
macro_rules! same_name {
    ($fault:ident: $from:ident => $to:ident { $($variant:ident),* $(,)? }) => {
        match $fault {
            $($from::$variant => $to::$variant,)*
        }
    };
}

pub(crate) use same_name;
