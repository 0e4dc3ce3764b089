//! Rows of a table of members as nested pairs, and macros to write such pairs: the rows a and b are
//! `(a, (b, ()))`.

/// Builds the nested pairs `(a, (b, (.., ())))` from `pairs!(a, b, ..)`.
#[macro_export]
macro_rules! pairs {
    () => { () };
    ($first:expr $(, $rest:expr)* $(,)?) => { ($first, $crate::pairs!($($rest),*)) };
}

/// Builds the struct of `made!(values => Name { a, b, .. })`, with the values of `pairs!(a, b, ..)`
/// as fields.
#[macro_export]
macro_rules! made {
    ($values:expr => $name:ident { $($field:ident),* $(,)? }) => {{
        let $crate::names!($($field),*) = $values;
        $name { $($field),* }
    }};
}

/// Expands to the pattern `(a, (b, (.., ())))` of `names!(a, b, ..)`.
#[macro_export]
macro_rules! names {
    () => { () };
    ($first:ident $(, $rest:ident)* $(,)?) => { ($first, $crate::names!($($rest),*)) };
}

/// The rows of a table with one member.
pub type Rows1<A> = (A, ());

/// The rows of a table with two members.
pub type Rows2<A, B> = (A, Rows1<B>);

/// The rows of a table with three members.
pub type Rows3<A, B, C> = (A, Rows2<B, C>);

/// The rows of a table with four members.
pub type Rows4<A, B, C, D> = (A, Rows3<B, C, D>);

/// The rows of a table with five members.
pub type Rows5<A, B, C, D, E> = (A, Rows4<B, C, D, E>);

/// The rows of a table with six members.
pub type Rows6<A, B, C, D, E, F> = (A, Rows5<B, C, D, E, F>);

/// The rows of a table with seven members.
pub type Rows7<A, B, C, D, E, F, G> = (A, Rows6<B, C, D, E, F, G>);

/// The rows of a table with eight members.
pub type Rows8<A, B, C, D, E, F, G, H> = (A, Rows7<B, C, D, E, F, G, H>);

/// The rows of a table with nine members.
pub type Rows9<A, B, C, D, E, F, G, H, I> = (A, Rows8<B, C, D, E, F, G, H, I>);

/// The rows of a table with ten members.
pub type Rows10<A, B, C, D, E, F, G, H, I, J> = (A, Rows9<B, C, D, E, F, G, H, I, J>);

/// The rows of a table with eleven members.
pub type Rows11<A, B, C, D, E, F, G, H, I, J, K> = (A, Rows10<B, C, D, E, F, G, H, I, J, K>);

/// The rows of a table with twelve members.
pub type Rows12<A, B, C, D, E, F, G, H, I, J, K, L> = (A, Rows11<B, C, D, E, F, G, H, I, J, K, L>);

/// The rows of a table with thirteen members.
pub type Rows13<A, B, C, D, E, F, G, H, I, J, K, L, M> = (
    A,
    Rows12<B, C, D, E, F, G, H, I, J, K, L, M>,
);

/// The rows of a table with fourteen members.
pub type Rows14<A, B, C, D, E, F, G, H, I, J, K, L, M, N> = (
    A,
    Rows13<B, C, D, E, F, G, H, I, J, K, L, M, N>,
);

/// The rows of a table with fifteen members.
pub type Rows15<A, B, C, D, E, F, G, H, I, J, K, L, M, N, O> = (
    A,
    Rows14<B, C, D, E, F, G, H, I, J, K, L, M, N, O>,
);

/// The rows of a table with sixteen members.
pub type Rows16<A, B, C, D, E, F, G, H, I, J, K, L, M, N, O, P> = (
    A,
    Rows15<B, C, D, E, F, G, H, I, J, K, L, M, N, O, P>,
);
