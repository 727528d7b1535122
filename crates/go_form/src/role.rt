// What nodes stand for.

/// What a node stands for where it stands: a production of the Go specification, by its name there.
#[derive(Clone, Copy)]
pub enum Role {
    /// a file
    SourceFile,
    /// an import, or a declaration outside functions
    Declaration,
    /// a spec of constants
    ConstSpec,
    /// the copy of a list that a spec of constants omits
    ConstCopy,
    /// a spec of variables
    VarSpec,
    /// a spec of a type
    TypeSpec,
    /// the names that a spec declares
    IdentifierList,
    /// the values of a spec
    ExpressionList,
    /// a name
    Identifier,
    /// an expression
    Expression,
    /// a type
    AnyType,
    /// what stands behind `chan`: a type, or the arrow of `chan<- T`
    ChannelElement,
    /// what stands behind the arrow of `<-chan T`
    ReceiveChannel,
    /// parameters and results
    Signature,
    /// the parameters of a signature
    Parameters,
    /// the result of a signature, a list or a type
    Results,
    /// a parameter or a result
    ParameterDecl,
    /// a field of a struct
    FieldDecl,
    /// the tag of a field
    Tag,
    /// an element of an interface
    InterfaceElem,
    /// what is not built, whatever it is
    Unbuilt,
}
