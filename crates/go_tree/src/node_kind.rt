// The kinds of nodes: one for each production of the grammar and each alternative of one.

/// What a node is: the production, or the alternative of one, that it was read by.
///
/// Behind each kind stand its parts, in source order. What is written alike has one kind, whether it
/// is an expression or a type: `*T`, `(T)`, `p.T`, `T[A]`, `<-chan T`.
#[derive(Clone, Copy, Debug, PartialEq, Eq)]
pub enum NodeKind {
    /// a file: the name of its package, its imports, its declarations
    File,
    /// `import "a"`: the spec
    ImportDecl,
    /// `import ( .. )`: the specs
    ImportGroup,
    /// `a "b"`: the name or the dot, where one stands, and the path
    ImportSpec,
    /// the `.` of an import
    DotImport,
    /// `func f[P C](x T) R { .. }`: the name, the type parameters if any, the signature, the body if any
    FuncDecl,
    /// `func (r T) f() { .. }`: the receiver's list, then as `FuncDecl`
    MethodDecl,
    /// `const X = 1`: the spec
    ConstDecl,
    /// `const ( .. )`: the specs
    ConstGroup,
    /// `X, Y T = 1, 2`: the names, the type if any, the values if any; where it omits its list behind a spec
    /// that has one, the names and the `ConstCopy`
    ConstSpec,
    /// the type if any and the values of the list that a spec omits, as the spec before wrote them
    ConstCopy,
    /// `var x = 1`: the spec
    VarDecl,
    /// `var ( .. )`: the specs
    VarGroup,
    /// `x, y T = 1, 2`: the names, the type if any, the values if any
    VarSpec,
    /// `type T U`: the spec
    TypeDecl,
    /// `type ( .. )`: the specs
    TypeGroup,
    /// `T U`: the name and the type
    TypeSpec,
    /// `T = U`: the name and the type
    AliasSpec,
    /// `T[P C] U`: the name, the type parameters, the type
    GenericTypeSpec,
    /// `T[P C] = U`: the name, the type parameters, the type
    GenericAliasSpec,
    /// `x, y`, on the left of a declaration: the names
    IdentList,
    /// `x, y`, on one side of an assignment, in a case or a return: the expressions
    ExprList,
    /// `[P, Q C, R D]`: the groups
    TypeParams,
    /// `P, Q C`: the names, then the constraint as `Union`
    TypeParam,
    /// `(x T) R`: the parameters, then the result, a type or `Params`, if any
    Signature,
    /// `(x T, y U)`: the parameters
    Params,
    /// `x T`: the name and the type
    Param,
    /// `x ...T`: the name and the type
    VariadicParam,
    /// `T`: the type; beside a `Param` or `VariadicParam` a name without its type
    UnnamedParam,
    /// `...T`: the type
    UnnamedVariadic,
    /// `[n]T`: the length and the type
    ArrayType,
    /// `[...]T`: the type
    EllipsisArrayType,
    /// `[]T`: the type
    SliceType,
    /// `map[K]V`: both types
    MapType,
    /// `chan T`: the type; `chan<- T`: its arrow, an `ArrowExpr`, of the type. But for that arrow, a
    /// `ChanType` directly in an `ArrowExpr` is that of `<-chan T`, and its part is the element type, also
    /// where that is an `ArrowExpr`. `<-chan <- x` is `ArrowExpr(ChanType(ArrowExpr(x)))`, which is no type
    ChanType,
    /// `func(x T) R`: the signature
    FuncType,
    /// `struct{ .. }`: the fields
    StructType,
    /// `interface{ .. }`: the elements
    InterfaceType,
    /// `x, y T "tag"`: the names, the type, the tag if any
    Field,
    /// `T "tag"`: the type, the tag if any
    EmbeddedField,
    /// `*T "tag"`: the type without its star, the tag if any
    EmbeddedPointer,
    /// `M()`: the name and the signature
    MethodElem,
    /// `T|~U`: the terms
    Union,
    /// `~T`: the type
    TildeType,
    /// an identifier
    Name,
    /// an integer literal
    IntLit,
    /// a floating-point or imaginary literal
    FloatLit,
    /// a rune literal
    RuneLit,
    /// a string literal
    StringLit,
    /// `(x)`: what stands in the parentheses, an expression or a type
    ParenExpr,
    /// `func() { .. }`: the signature and the body
    FuncLit,
    /// `T{ .. }`: the type and the `LiteralValue`
    CompositeLit,
    /// `{x, k: y}`: the elements
    LiteralValue,
    /// `k: x`: the key and the element
    KeyValueExpr,
    /// `x.f`: what stands before the dot, and the name
    SelectorExpr,
    /// `x.(T)`: the operand and the type
    TypeAssertExpr,
    /// `x.(type)`: the operand
    TypeGuardExpr,
    /// `x[i]`, `f[T, U]`: the operand, then what stands in the brackets
    IndexExpr,
    /// `x[:]`: the operand
    SliceAllExpr,
    /// `x[i:]`: the operand and the bound
    SliceFromExpr,
    /// `x[:j]`: the operand and the bound
    SliceToExpr,
    /// `x[i:j]`: the operand and both bounds
    SliceExpr,
    /// `x[:j:k]`: the operand and both bounds
    FullSliceToExpr,
    /// `x[i:j:k]`: the operand and the three bounds
    FullSliceExpr,
    /// `f(x, y)`: the operand and the arguments
    CallExpr,
    /// `f(x, y...)`: the operand and the arguments
    SpreadCallExpr,
    /// `+x`
    PlusExpr,
    /// `-x`
    MinusExpr,
    /// `!x`
    NotExpr,
    /// `^x`
    ComplementExpr,
    /// `*x`, an indirection or a pointer type
    StarExpr,
    /// `&x`
    AddressExpr,
    /// `<-x`, a receive; `<-chan T`, a type; and the arrow of `chan<- T`
    ArrowExpr,
    /// `x * y`: both operands
    MulExpr,
    /// `x / y`: both operands
    QuoExpr,
    /// `x % y`: both operands
    RemExpr,
    /// `x << y`: both operands
    ShlExpr,
    /// `x >> y`: both operands
    ShrExpr,
    /// `x & y`: both operands
    AndExpr,
    /// `x &^ y`: both operands
    AndNotExpr,
    /// `x + y`: both operands
    AddExpr,
    /// `x - y`: both operands
    SubExpr,
    /// `x | y`: both operands
    OrExpr,
    /// `x ^ y`: both operands
    XorExpr,
    /// `x == y`: both operands
    EqualExpr,
    /// `x != y`: both operands
    NotEqualExpr,
    /// `x < y`: both operands
    LessExpr,
    /// `x <= y`: both operands
    LessEqualExpr,
    /// `x > y`: both operands
    GreaterExpr,
    /// `x >= y`: both operands
    GreaterEqualExpr,
    /// `x && y`: both operands
    LogicalAndExpr,
    /// `x || y`: both operands
    LogicalOrExpr,
    /// `{ .. }`: the statements
    Block,
    /// `L: s`: the label, the statement if any
    LabeledStmt,
    /// an expression where a statement may stand: the expression
    ExprStmt,
    /// `c <- x`: both operands
    SendStmt,
    /// `x++`: the operand
    IncStmt,
    /// `x--`: the operand
    DecStmt,
    /// `x, y = 1, 2`: both lists
    AssignStmt,
    /// `x, y := 1, 2`: both lists
    DefineStmt,
    /// `x += y`: both lists
    AddAssignStmt,
    /// `x -= y`: both lists
    SubAssignStmt,
    /// `x *= y`: both lists
    MulAssignStmt,
    /// `x /= y`: both lists
    QuoAssignStmt,
    /// `x %= y`: both lists
    RemAssignStmt,
    /// `x &= y`: both lists
    AndAssignStmt,
    /// `x |= y`: both lists
    OrAssignStmt,
    /// `x ^= y`: both lists
    XorAssignStmt,
    /// `x <<= y`: both lists
    ShlAssignStmt,
    /// `x >>= y`: both lists
    ShrAssignStmt,
    /// `x &^= y`: both lists
    AndNotAssignStmt,
    /// `go f()`: the expression
    GoStmt,
    /// `defer f()`: the expression
    DeferStmt,
    /// `return x, y`: the list if any
    ReturnStmt,
    /// `break L`: the label if any
    BreakStmt,
    /// `continue L`: the label if any
    ContinueStmt,
    /// `goto L`: the label
    GotoStmt,
    /// `fallthrough`
    FallthroughStmt,
    /// `if s; x { .. } else { .. }`: the `Init` if any, the condition, the block, the block or `IfStmt` behind `else` if any
    IfStmt,
    /// `s;` in the header of if, for and switch: the statement if any
    Init,
    /// `switch s; x { .. }`: the `Init` if any, the tag or guard if any as a statement, the clauses
    SwitchStmt,
    /// `select { .. }`: the clauses
    SelectStmt,
    /// `case x, y: ..`: the list or `Default`, then the statements
    CaseClause,
    /// `case s: ..` of a select: the statement or `Default`, then the statements
    CommClause,
    /// the word `default` of a clause
    Default,
    /// `for s; x; t { .. }`: the `Init` if any, the condition if any, the last statement if any, the block
    ForStmt,
    /// `for x := range y { .. }`: the clause and the block
    RangeStmt,
    /// `range y`: the expression
    RangeClause,
    /// `x, y = range z`: the list and the expression
    RangeAssign,
    /// `x, y := range z`: the list and the expression
    RangeDefine,
}
